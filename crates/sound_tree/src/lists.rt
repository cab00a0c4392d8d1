// The child lists: all of them together have each region that is not a root once.
ghost use Rattle.std.specs.Prelude.{◌≡◌, ◌<◌, ◌≤◌};
ghost use Rattle.sections.specs.Rows.{region_in};
ghost use Rattle.sound_tree.specs.Tree.{more, after, floor_of, child_fits, walked, lists_from};

use crate::Run;
use tables::RegionCapa;

#[tactic(auto, unfolding(crate::specs::Tree::after))]
fn after(s: Run, r: RegionCapa) -> Run
    ensures { result ≡ after s r }
{
    Run {
        last: r.start,
        far: s.far.max(r.end),
        carved: if r.kind == RegionCapa::CARVE {
            s.carved.max(r.end)
        } else {
            s.carved
        },
    }
}

#[tactic(auto, unfolding(crate::specs::Tree::floor_of))]
fn floor_of(s: Run, r: RegionCapa) -> u64
    ensures { result ≡ floor_of s r }
{
    if r.kind == RegionCapa::CARVE {
        s.far
    } else {
        s.carved
    }
}

#[tactic(auto, unfolding(crate::specs::Tree::child_fits))]
fn child_fits(own: u64, s: Run, r: RegionCapa) -> bool
    ensures { result ≡ child_fits own s r }
{
    r.parent == own && s.last <= r.start && floor_of(s, r) <= r.start
}

// What is left of `left` children behind the list of region k; none where the list is not fit.
fn walk(p: &[u64], left: usize, k: usize) -> Option<usize>
    requires { (left ≤ 1024) × (k < 1024) }
    ensures { more result ≡ walked (region_in p.now) left k }
{
    let own = (k + 1) as u64;
    let first = sections::row_in::<RegionCapa>(p, k);
    let mut link = first.child;
    let mut n = left;
    let mut s = Run::default();
    // It ends at link 0, and each turn takes one of the children that are left.
    while 0 < link {
        n = n.checked_sub(1)?;
        let r = sections::row_in::<RegionCapa>(p, (link - 1) as usize);
        if !child_fits(own, s, r) {
            return None;
        }
        s = after(s, r);
        link = r.next;
    }
    Some(n)
}

// Whether the lists of the n regions have the children, as many as there are.
pub fn lists_hold(p: &[u64], n: usize, many: usize) -> bool
    requires { (n ≤ 1024) × (many ≤ 1024) }
    ensures { result ≡ lists_from (region_in p.now) many n 0 }
{
    let mut left = many;
    for i in 0..n {
        let Some(rest) = walk(p, left, i) else {
            return false;
        };
        left = rest;
    }
    left == 0
}
