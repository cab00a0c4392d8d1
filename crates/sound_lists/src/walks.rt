// Walks along links, with a mark in the work area for each slot that was met. What was met is counted, so that the marks are read here alone.
ghost use Rattle.std.specs.Prelude.{◌≡◌, length};
ghost use Rattle.tables.specs.View.{view, Sized};
ghost use Rattle.list_links.specs.Stacks.{slots_of, may_meet, stack_holds};
ghost use Rattle.sound_lists.specs.Counting.{tally};
ghost use Rattle.sound_lists.specs.Marks.{Clean};
ghost use Rattle.sound_lists.specs.Loops.{Marked, Settled};

use list_links::Stack;
use tables::Region;

// How many links were followed, and whether the walk ended where it should and met what it may, nothing twice. No `Option`: `links` counts what was met
// where it did not end, too.
#[derive(Clone, Copy)]
pub struct Followed {
    pub ended: bool,
    pub links: usize,
}

// Follows at most `most` links from l on, up to link e, and marks the slots it meets.
pub fn follow(t: &[u64], s: Stack, e: u64, most: usize, l: u64, w: &mut [u64]) -> Followed
    requires sized { Sized t.now }
    requires w_len { length w.old ≡ length t.now }
    ensures { Marked (view t.now) s e most l w.old result w.new }
{
    let n = list_links::slots_of(t, s);
    let p = list_links::words_of(t, s);
    let records = sections::rows_of::<Region>(t);
    let mut link = l;
    for links in 0..most {
        if link == 0 {
            return Followed {
                ended: link == e,
                links,
            };
        }
        let i = (link - 1) as usize;
        let x = list_links::step_at(s, p, records, n, i);
        if !x.may || marks::is_marked(w, i) {
            return Followed {
                ended: false,
                links,
            };
        }
        marks::mark(w, i);
        link = x.next;
    }
    Followed {
        ended: link == e,
        links: most,
    }
}

// How many slots may be met.
fn count(t: &[u64], s: Stack) -> usize
    requires { Sized t.now }
    ensures { result ≡ tally (may_meet (view t.now) s) (slots_of (view t.now) s) }
{
    let n = list_links::slots_of(t, s);
    let p = list_links::words_of(t, s);
    let records = sections::rows_of::<Region>(t);
    let mut k = 0;
    for i in 0..n {
        k += usize::from(list_links::step_at(s, p, records, n, i).may);
    }
    k
}

// Whether all that may be met was met: as many links were followed, none to a slot twice. The marks are cleared.
pub fn settle(t: &[u64], s: Stack, x: Followed, w: &mut [u64]) -> bool
    requires sized { Sized t.now }
    requires w_len { length w.old ≡ length t.now }
    ensures { Settled (view t.now) s x w.old result w.new }
{
    let all = count(t, s);
    let n = list_links::slots_of(t, s);
    marks::clear(w, n);
    x.ended && x.links == all
}

// Whether every slot is in use, or on the free stack once.
pub fn stack_holds(t: &[u64], s: Stack, w: &mut [u64]) -> bool
    requires sized { Sized t.now }
    requires clean { Clean t.now w.old }
    ensures value { result ≡ stack_holds (view t.now) s }
    ensures w_unchanged { w.new ≡ w.old }
{
    let n = list_links::slots_of(t, s);
    let top = list_links::top_of(t, s);
    let used = top.count as usize;
    if used > n {
        return false;
    }
    let x = follow(t, s, 1, n - used, list_links::link_to(n, top.head), w);
    settle(t, s, x, w)
}
