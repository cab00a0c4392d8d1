// From each region the parents lead to a root. The way up is marked once it is known to lead there, so that each region is passed twice at most.
ghost use Rattle.std.specs.Prelude.{◌≡◌, ◌-◌};
ghost use Rattle.sections.specs.Rows.{region_in};
ghost use Rattle.sound_tree.specs.Tree.{stops, climb_from, mark_from, rooted_from, marks_from};

use tables::RegionCapa;

fn parent_of(p: &[u64], j: usize) -> usize
    ensures { result ≡ (region_in p.now j).parent - 1 }
{
    let r = sections::row_in::<RegionCapa>(p, j);
    tables::slot_to(r.parent)
}

// A region that is marked, or no child.
#[tactic(auto, unfolding(crate::specs::Tree::stops))]
fn stops_at(p: &[u64], w: &[u64], j: usize) -> bool
    ensures { result ≡ stops (region_in p.now) w.now j }
{
    0 < words::word(w, j) || sections::row_in::<RegionCapa>(p, j).kind < RegionCapa::ALIAS
}

fn climb(p: &[u64], w: &[u64], n: usize, i: usize) -> bool
    ensures { result ≡ climb_from (region_in p.now) w.now n i }
{
    let mut j = i;
    for _ in 0..n {
        if stops_at(p, w, j) {
            return true;
        }
        j = parent_of(p, j);
    }
    false
}

fn mark(p: &[u64], w: &mut [u64], n: usize, i: usize)
    ensures { w.new ≡ mark_from (region_in p.now) w.old n i }
{
    let mut j = i;
    for _ in 0..n {
        if stops_at(p, w, j) {
            return;
        }
        words::put(w, j, 1);
        j = parent_of(p, j);
    }
}

// The words of w that are 0 stand for regions that are not known to lead to a root.
pub fn roots_hold(p: &[u64], w: &mut [u64], n: usize) -> bool
    ensures value { result ≡ rooted_from (region_in p.now) n w.old n 0 }
    ensures w_after { w.new ≡ marks_from (region_in p.now) n w.old n 0 }
{
    for i in 0..n {
        if !climb(p, w, n, i) {
            return false;
        }
        mark(p, w, n, i);
    }
    true
}
