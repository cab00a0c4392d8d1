// A region without children revoked (document 01, **Revoke**): it leaves its parent's list and its domain's tracker, what a carve held goes back, and
// its slot is freed. `closing` has the domains that are closing (document 02, request 5): they queue nothing.

#![tactic(auto)]

ghost use Rattle.std.specs.Prelude.{◌≡◌};
ghost use Rattle.tables.specs.View.{view, Sized, Left};
ghost use Rattle.leaf_revocation.specs.Leaf.{leave_parent, cleanup_if, free_leaf, revoke_leaf};

use answers::Answer;
use rights::Rights;
use tables::RegionCapa;

// A root is in no list.
fn leave_parent(t: &mut [u64], i: usize)
    requires { Sized t.old }
    ensures { Left t.new (leave_parent i (view t.old)) }
{
    let g = rows::load::<RegionCapa>(t, i);
    if g.kind == RegionCapa::ROOT {
        return;
    }
    children::remove_child(t, tables::slot_to(g.parent), i);
}

fn cleanup_if(t: &mut [u64], g: RegionCapa) -> Answer
    requires { Sized t.old }
    ensures value { result ≡ (cleanup_if g (view t.old)).answer }
    ensures left { Left t.new (cleanup_if g (view t.old)).tables }
{
    let ops = children::rights_of(g.rights);
    if ops.contains(Rights::CLEANUP) {
        return domain::cleanup(t, g.start, g.end);
    }
    Ok(0)
}

// A region that has left its parent's list and its domain's tracker. Cleanup is queued last, after the tracker's updates.
fn free_leaf(t: &mut [u64], i: usize, g: RegionCapa, closing: u64) -> Answer
    requires { Sized t.old }
    ensures value { result ≡ (free_leaf closing i g (view t.old)).answer }
    ensures left { Left t.new (free_leaf closing i g (view t.old)).tables }
{
    giving_back::give_back(t, g, closing)?;
    segment::free_region(t, i)?;
    cleanup_if(t, g)
}

// A region without children.
pub fn revoke_leaf(t: &mut [u64], i: usize, closing: u64) -> Answer
    requires { Sized t.old }
    ensures value { result ≡ (revoke_leaf closing i (view t.old)).answer }
    ensures left { Left t.new (revoke_leaf closing i (view t.old)).tables }
{
    let g = rows::load::<RegionCapa>(t, i);
    let a = segment::access(g.start, g.end, g.rights);
    leave_parent(t, i);
    domain::deactivate_region(t, tables::slot_to(g.owner), a, closing)?;
    free_leaf(t, i, g, closing)
}
