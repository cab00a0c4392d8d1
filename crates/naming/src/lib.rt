// The call that a script's record names (document 01, "The script program"), as crate call has it.

#![tactic(auto)]

ghost use Rattle.std.specs.Prelude.{◌≡◌, ◌<◌};
ghost use Rattle.model.specs.Perform.{Step};
ghost use Rattle.model.specs.CallWords.{StepWords};
ghost use Rattle.call.specs.Steps.{step_named};
ghost use Rattle.script_records.specs.Script.{manager_of};
ghost use Rattle.naming.specs.Given.{Given};
ghost use Rattle.naming.specs.Named.{Names, access_named};

use region::AccessRights;
use rights::Rights;
use script_records::{Kind, Record};
use send_options::SendOptions;
use tables::Handle;

// "slot 2^64 − 1 is no manager".
const NO_MANAGER: u64 = u64::MAX;

// A range with rights, which were tested.
fn access(start: u64, end: u64, rights: u64) -> AccessRights
    requires { rights < 256 }
    ensures { result ≡ access_named start end rights }
{
    let ops = Rights(rights as u8);
    AccessRights { start, end, ops }
}

// The call of a record of kind `Open`.
fn opening(r: Record) -> call::Call
    ensures { (step_named result ≡ Step.Open (manager_of r.a r.b) r.c) × StepWords (step_named result) }
{
    if r.a == NO_MANAGER {
        return call::Call::Open(r.c);
    }
    let manager = Handle {
        slot: r.a,
        generation: r.b,
    };
    call::Call::OpenUnder(manager, r.c)
}

// The call that a record names.
pub fn call_of(r: Record) -> call::Call
    requires { Given r }
    ensures { Names r result }
{
    let domain = Handle {
        slot: r.a,
        generation: r.b,
    };
    let local = r.c as usize;
    match r.kind {
        Kind::Open => opening(r),
        Kind::Root => call::Call::Root(domain, access(r.c, r.d, r.e)),
        Kind::Alias => call::Call::Alias(call::Child {
            domain,
            local,
            access: access(r.d, r.e, r.f),
        }),
        Kind::Carve => call::Call::Carve(call::Child {
            domain,
            local,
            access: access(r.d, r.e, r.f),
        }),
        Kind::Send => call::Call::Send(domain, local, r.d as usize, SendOptions::None),
        Kind::Revoke => call::Call::Revoke(domain, local),
        Kind::CreateRevokeCapa => call::Call::CreateRevokeCapa(domain, local),
    }
}
