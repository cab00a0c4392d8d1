// The holders of an address (document 01, **Reading**): the domains with reach above 0 there, domain slot rising, each once (document 02, request 6).

#![tactic(auto)]

ghost use Rattle.std.specs.Prelude.{◌≡◌, length};
ghost use Rattle.tables.specs.View.{view, Sized};
ghost use Rattle.readings.specs.Readings.{fill_run};
ghost use Rattle.holders.specs.Holders.{is_holder, holders_of};

use pools::Pool;

// Whether domain d is in use and has reach above 0 at a.
#[tactic(auto, unfolding(crate::specs::Holders::is_holder))]
fn is_holder(t: &[u64], d: usize, a: u64) -> bool
    requires { Sized t.now }
    ensures { result ≡ is_holder (view t.now) a d }
{
    !pools::is_free(t, Pool::Domains, d) && 0 < readings::largest_reach(t, d, a, a)
}

// The slots of the domains with reach above 0 at a into a lent run, rising; the answer is their number.
pub fn holders(t: &[u64], a: u64, run: &mut [u64]) -> u64
    requires { Sized t.now }
    ensures value { result ≡ length (holders_of (view t.now) a) }
    ensures run_after { run.new ≡ fill_run (holders_of (view t.now) a) run.old }
{
    let domains = words::size(t, sizes::DOMAINS);
    let mut n: usize = 0;
    for d in 0..domains {
        if is_holder(t, d, a) {
            words::put(run, n, d as u64);
            n += 1;
        }
    }
    n as u64
}
