// The test of the region tree in lent tables: rows, child lists, ways to a root. Any words may stand in the tables.

#![tactic(auto)]

ghost use Rattle.std.specs.Prelude.{◌≡◌, length, replicate};
ghost use Rattle.tables.specs.View.{view, Sized};
ghost use Rattle.sound_tree.specs.Tree.{tree_holds};

use pools::Pool;
use tables::RegionCapa;

mod lists;
mod regions;
mod roots;

// What the children before one of a list leave to test: the last start, the largest end of all, and of the carves.
#[derive(Clone, Copy, Default)]
pub struct Run {
    pub last: u64,
    pub far: u64,
    pub carved: u64,
}

// Whether the region tree is sound. The words of w are all 0, before and after.
pub fn tree_holds(t: &[u64], w: &mut [u64]) -> bool
    requires sized { Sized t.now }
    requires w_len { length w.old ≡ length t.now }
    requires w_value { w.old ≡ replicate (length w.old) 0 }
    ensures value { result ≡ tree_holds (view t.now) }
    ensures w_unchanged { w.new ≡ w.old }
{
    let n = words::size(t, sizes::REGIONS);
    let p = sections::rows_of::<RegionCapa>(t);
    let links = sections::links_of(t, Pool::Regions);
    let Some(many) = regions::count_children(links, p, n) else {
        return false;
    };
    if !lists::lists_hold(p, n, many) {
        return false;
    }
    let rooted = roots::roots_hold(p, w, n);
    w[..n].fill(0);
    rooted
}
