// The calls about capabilities, built of the plain arguments that an exported function takes.

#![tactic(auto)]

ghost use Rattle.std.specs.Prelude.{◌≡◌};
ghost use Rattle.model.specs.State.{no_options};
ghost use Rattle.model.specs.Perform.{Step};
ghost use Rattle.model.specs.CallWords.{StepWords};
ghost use Rattle.call.specs.Arguments.{handle, hash_in, with_flags, with_hash};
ghost use Rattle.call.specs.Steps.{step_named};

use call::Call;
use rights::Rights;
use send_options::SendOptions;
use tables::{Handle, Hash};

// Without a flag word and a hash.
pub fn send(domain: u64, generation: u64, local: u64, target: u64) -> Call
    ensures result_value { step_named result ≡ Step.Send (handle domain generation) local target no_options }
    ensures step_words { StepWords (step_named result) }
{
    let domain = Handle {
        slot: domain,
        generation,
    };
    Call::Send(domain, local as usize, target as usize, SendOptions::None)
}

// With a flag word and no hash.
pub fn send_with_flags(domain: u64, generation: u64, local: u64, target: u64, flags: u8) -> Call
    ensures result_value { step_named result ≡ Step.Send (handle domain generation) local target (with_flags flags) }
    ensures step_words { StepWords (step_named result) }
{
    let domain = Handle {
        slot: domain,
        generation,
    };
    let flags = Rights(flags);
    let options = SendOptions::Flags(flags);
    Call::Send(domain, local as usize, target as usize, options)
}

// The four words of 32 bytes.
fn hash_of(h: &[u8; 32]) -> Hash
    ensures { result ≡ record { word0 = (hash_in h.now).word0; word1 = (hash_in h.now).word1; word2 = (hash_in h.now).word2; word3 = (hash_in h.now).word3 } }
{
    Hash {
        word0: byte_numbers::number_at::<8>(h, 0),
        word1: byte_numbers::number_at::<8>(h, 8),
        word2: byte_numbers::number_at::<8>(h, 16),
        word3: byte_numbers::number_at::<8>(h, 24),
    }
}

// With a flag word and a hash.
pub fn send_with_hash(
    domain: u64,
    generation: u64,
    local: u64,
    target: u64,
    flags: u8,
    hash: &[u8; 32],
) -> Call
    ensures result_value { step_named result ≡ Step.Send (handle domain generation) local target (with_hash flags (hash_in hash.now)) }
    ensures step_words { StepWords (step_named result) }
{
    let domain = Handle {
        slot: domain,
        generation,
    };
    let hash = hash_of(hash);
    let options = SendOptions::Hashed(Rights(flags), hash);
    Call::Send(domain, local as usize, target as usize, options)
}

pub fn revoke(domain: u64, generation: u64, local: u64) -> Call
    ensures result_value { step_named result ≡ Step.Revoke (handle domain generation) local }
    ensures step_words { StepWords (step_named result) }
{
    let domain = Handle {
        slot: domain,
        generation,
    };
    Call::Revoke(domain, local as usize)
}

pub fn create_revoke_capa(domain: u64, generation: u64, local: u64) -> Call
    ensures result_value { step_named result ≡ Step.CreateRevokeCapa (handle domain generation) local }
    ensures step_words { StepWords (step_named result) }
{
    let domain = Handle {
        slot: domain,
        generation,
    };
    Call::CreateRevokeCapa(domain, local as usize)
}
