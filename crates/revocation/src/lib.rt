// **Revoke** (document 01): a region goes after its children, the first child first. `closing` has the domains that are
// closing (document 02, request 5): they queue nothing.

#![tactic(auto)]

ghost use Rattle.std.specs.Prelude.{◌≡◌};
ghost use Rattle.tables.specs.View.{view, Sized, Left};
ghost use Rattle.revocation.specs.Revoke.{revoke_region, revoke};

use answers::Answer;
use pools::Pool;
use refusals::Refusal;
use tables::RegionCapa;

// `left` falls with each region above and with each region freed.
fn revoke_region(t: &mut [u64], i: usize, left: u64, closing: u64) -> Answer
    requires { Sized t.old }
    ensures value { result ≡ (revoke_region closing left i (view t.old)).answer }
    ensures left { Left t.new (revoke_region closing left i (view t.old)).tables }
{
    for n in (0..left).rev() {
        let g = rows::load::<RegionCapa>(t, i);
        if g.child == 0 {
            return leaf_revocation::revoke_leaf(t, i, closing);
        }
        revoke_region(t, tables::slot_to(g.child), n, closing)?;
    }
    Err(Refusal::Memory)
}

// There are no more regions to free than are live.
pub fn revoke(t: &mut [u64], i: usize, closing: u64) -> Answer
    requires { Sized t.old }
    ensures value { result ≡ (revoke closing i (view t.old)).answer }
    ensures left { Left t.new (revoke closing i (view t.old)).tables }
{
    let n = pools::count(t, Pool::Regions);
    revoke_region(t, i, n, closing)
}
