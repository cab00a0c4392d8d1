// How far a script is: the bytes that are passed and the calls that were run, and the reply where a bad record ends it (document 01, "The script
// program").

#![tactic(auto)]

ghost use Rattle.std.specs.Prelude.{◌≡◌, ◌+◌, ◌<◌, ◌^◌};
ghost use Rattle.refusals.specs.Refusals.{number, bad_record};

use refusals::Refusal;
use replies::Reply;

// A record that was run: what its call replied, and the bytes that it took.
#[derive(Clone, Copy)]
pub struct Ran {
    pub reply: Reply,
    pub size: usize,
}

// A place between two records: the bytes before it, and the calls run by then.
#[derive(Clone, Copy)]
pub struct Place {
    pub at: usize,
    pub calls: u64,
}

// Behind a record that was run: its bytes are passed, and it counts as a call, accepted or refused.
pub fn behind(p: Place, x: Ran) -> Place
    requires { (p.at + x.size < 2 ^ 64) × (p.calls + 1 < 2 ^ 64) }
    ensures { result ≡ record { at = p.at + x.size; calls = p.calls + 1 } }
{
    Place {
        at: p.at + x.size,
        calls: p.calls + 1,
    }
}

// The reply to a script that a bad record ends: 17, and the number of calls run before it.
pub fn bad_record(calls: u64) -> Reply
    ensures { result ≡ record { refusal = number bad_record; value = calls } }
{
    Reply {
        refusal: u64::from(Refusal::BadRecord),
        value: calls,
    }
}
