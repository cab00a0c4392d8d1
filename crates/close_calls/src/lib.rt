// A Management capability revoked (document 02, request 5): its domain is closed, after what is asked of all domains that
// would be closed with it.

#![tactic(auto)]

ghost use Rattle.std.specs.Prelude.{◌≡◌};
ghost use Rattle.tables.specs.View.{view, Sized, Left};
ghost use Rattle.close_calls.specs.Calls.{close_unless_held, close_managed};

use answers::Answer;
use refusals::Refusal;
use tables::Handle;

// 22, then 23.
fn close_unless_held(t: &mut [u64], d: usize) -> Answer
    requires { Sized t.old }
    ensures value { result ≡ (close_unless_held d (view t.old)).answer }
    ensures left { Left t.new (close_unless_held d (view t.old)).tables }
{
    if closing_checks::closes_root(t, d) {
        return Err(Refusal::HoldsRoot);
    }
    if closing_checks::closes_running(t, d) {
        return Err(Refusal::Running);
    }
    closing::close(t, d)
}

// 3 where the domain was closed before.
pub fn close_managed(t: &mut [u64], h: Handle) -> Answer
    requires { Sized t.old }
    ensures value { result ≡ (close_managed h (view t.old)).answer }
    ensures left { Left t.new (close_managed h (view t.old)).tables }
{
    let d = checks::live_domain(t, h)?;
    close_unless_held(t, d as usize)
}
