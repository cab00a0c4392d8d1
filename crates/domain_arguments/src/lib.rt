// The calls about domains, built of the plain arguments that an exported function takes.

#![tactic(auto)]

ghost use Rattle.std.specs.Prelude.{◌≡◌};
ghost use Rattle.std.proofs.Math.Option.{none, some};
ghost use Rattle.model.specs.Perform.{Step};
ghost use Rattle.model.specs.CallWords.{StepWords};
ghost use Rattle.call.specs.Arguments.{handle};
ghost use Rattle.call.specs.Steps.{step_named};

use call::Call;
use tables::Handle;

pub fn open(cores: u64) -> Call
    ensures result_value { step_named result ≡ Step.Open none cores }
    ensures step_words { StepWords (step_named result) }
{
    Call::Open(cores)
}

pub fn open_under(manager: u64, generation: u64, cores: u64) -> Call
    ensures result_value { step_named result ≡ Step.Open (some (handle manager generation)) cores }
    ensures step_words { StepWords (step_named result) }
{
    let manager = Handle {
        slot: manager,
        generation,
    };
    Call::OpenUnder(manager, cores)
}

pub fn channel(domain: u64, generation: u64, to: u64, to_generation: u64) -> Call
    ensures result_value { step_named result ≡ Step.Channel (handle domain generation) (handle to to_generation) }
    ensures step_words { StepWords (step_named result) }
{
    let domain = Handle {
        slot: domain,
        generation,
    };
    let to = Handle {
        slot: to,
        generation: to_generation,
    };
    Call::Channel(domain, to)
}

pub fn set_core_map(domain: u64, generation: u64, cores: u64) -> Call
    ensures result_value { step_named result ≡ Step.SetCoreMap (handle domain generation) cores }
    ensures step_words { StepWords (step_named result) }
{
    let domain = Handle {
        slot: domain,
        generation,
    };
    Call::SetCoreMap(domain, cores)
}

pub fn set_interface(domain: u64, generation: u64, word: u64) -> Call
    ensures result_value { step_named result ≡ Step.SetInterface (handle domain generation) word }
    ensures step_words { StepWords (step_named result) }
{
    let domain = Handle {
        slot: domain,
        generation,
    };
    Call::SetInterface(domain, word)
}

pub fn freeze_interface(domain: u64, generation: u64) -> Call
    ensures result_value { step_named result ≡ Step.FreezeInterface (handle domain generation) }
    ensures step_words { StepWords (step_named result) }
{
    let domain = Handle {
        slot: domain,
        generation,
    };
    Call::FreezeInterface(domain)
}
