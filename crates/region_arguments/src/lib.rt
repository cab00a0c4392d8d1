// The calls that make regions, built of the plain arguments that an exported function takes.

#![tactic(auto)]

ghost use Rattle.std.specs.Prelude.{◌≡◌};
ghost use Rattle.model.specs.Perform.{Step};
ghost use Rattle.model.specs.CallWords.{StepWords};
ghost use Rattle.call.specs.Arguments.{handle, access};
ghost use Rattle.call.specs.Steps.{step_named};

use call::{Call, Child};
use region::AccessRights;
use rights::Rights;
use tables::Handle;

pub fn root(domain: u64, generation: u64, start: u64, end: u64, rights: u8) -> Call
    ensures result_value { step_named result ≡ Step.Root (handle domain generation) (access start end rights) }
    ensures step_words { StepWords (step_named result) }
{
    let domain = Handle {
        slot: domain,
        generation,
    };
    let ops = Rights(rights);
    let root = AccessRights { start, end, ops };
    Call::Root(domain, root)
}

pub fn alias(domain: u64, generation: u64, local: u64, start: u64, end: u64, rights: u8) -> Call
    ensures result_value { step_named result ≡ Step.Alias (handle domain generation) local (access start end rights) }
    ensures step_words { StepWords (step_named result) }
{
    let domain = Handle {
        slot: domain,
        generation,
    };
    let ops = Rights(rights);
    let alias = AccessRights { start, end, ops };
    Call::Alias(Child {
        domain,
        local: local as usize,
        access: alias,
    })
}

pub fn carve(domain: u64, generation: u64, local: u64, start: u64, end: u64, rights: u8) -> Call
    ensures result_value { step_named result ≡ Step.Carve (handle domain generation) local (access start end rights) }
    ensures step_words { StepWords (step_named result) }
{
    let domain = Handle {
        slot: domain,
        generation,
    };
    let ops = Rights(rights);
    let carve = AccessRights { start, end, ops };
    Call::Carve(Child {
        domain,
        local: local as usize,
        access: carve,
    })
}
