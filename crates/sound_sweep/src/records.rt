// One record of the sweep, and the end behind the last.
ghost use Rattle.std.specs.Prelude.{◌≡◌};
ghost use Rattle.sweep.specs.Sweep.{inside};
ghost use Rattle.sweep_cursors.specs.Sums.{Low};
ghost use Rattle.sweep_cursors.specs.Cursors.{cursor_in};
ghost use Rattle.sweep_neighbours.specs.Follows.{record_from};
ghost use Rattle.sound_sweep.specs.Cursors.{Left, rounds};
ghost use Rattle.sound_sweep.specs.Steps.{turn, ending};

use crate::Both;
use sweep_cursors::{Cursor, counts, events};
use tables::Region;

// At each event inside q the sums still differ by its counts.
fn inside(s: &[u64], e: &[u64], q: Region, mut p: Cursor, mut m: Cursor) -> Both
    requires low { Low p.place p.sums }
    requires low_2 { Low m.place m.sums }
    ensures { Left s.now e.now (inside (rounds s.now e.now) (record_from 0 q) (cursor_in s.now p) (cursor_in e.now m)) result }
{
    let mut ok = counts::agrees(p.sums, m.sums, q);
    let mut at = events::next(e, m.place, events::next(s, p.place, q.end));
    while ok && at < q.end {
        p = events::upto(s, at, p);
        m = events::upto(e, at, m);
        ok = counts::agrees(p.sums, m.sums, q);
        at = events::next(e, m.place, events::next(s, p.place, q.end));
    }
    Both { p, m, ok }
}

// Record q behind b: both cursors go to its start and through it, whether or not it may stand there, so that what they leave is one equation.
pub fn holds(s: &[u64], e: &[u64], b: Region, q: Region, p: Cursor, m: Cursor) -> Both
    requires low { Low p.place p.sums }
    requires low_2 { Low m.place m.sums }
    ensures { Left s.now e.now (turn (rounds s.now e.now) (record_from 0 b) (record_from 0 q) (cursor_in s.now p) (cursor_in e.now m)) result }
{
    let ended = events::upto(e, b.end, m);
    let may = sweep_neighbours::follows(s, b, q, p, ended.sums);
    let r = inside(
        s,
        e,
        q,
        events::upto(s, q.start, p),
        events::upto(e, q.start, ended),
    );
    Both {
        ok: may && r.ok,
        ..r
    }
}

// Behind the last record b: no start is left, and all that started has ended.
pub fn ends(s: &[u64], e: &[u64], b: Region, p: Cursor, m: Cursor) -> bool
    requires { Low m.place m.sums }
    ensures { result ≡ ending (record_from 0 b) (cursor_in s.now p) (cursor_in e.now m) }
{
    let last = events::upto(e, b.end, m);
    s.len() / 2 <= p.place && p.sums.ref_count == last.sums.ref_count
}
