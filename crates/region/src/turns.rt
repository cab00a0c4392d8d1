// Turns of a walk that leave the counts as they are: the record at hand is cut at an edge of the range, or takes in the one behind it.
ghost use Rattle.std.specs.Prelude.{◌≡◌};
ghost use Rattle.tables.specs.View.{view, Sized, Left};
ghost use Rattle.region.specs.Turns.{cut_start, cut_end, merge_at};

use std::ops::ControlFlow;
use tables::Region;
use tracker_records::links;
use walk_cursors::{Cursor, Progress};

// The record at hand is cut at the range's start, and the walk goes on with its right half.
pub fn cut_start(t: &mut [u64], c: Cursor) -> Progress
    requires { Sized t.old }
    ensures value { result ≡ (cut_start (view t.old) c).answer }
    ensures left { Left t.new (cut_start (view t.old) c).tables }
{
    match links::split_region_at(t, tables::slot_to(c.at), c.start) {
        Ok(link) => ControlFlow::Continue(Cursor {
            prev: c.at,
            at: link,
            start: c.start,
            marks: c.marks,
        }),
        Err(r) => ControlFlow::Break(Err(r)),
    }
}

// The record at hand is cut at the range's end, and the walk stays there.
pub fn cut_end(t: &mut [u64], c: Cursor, end: u64) -> Progress
    requires { Sized t.old }
    ensures value { result ≡ (cut_end (view t.old) c end).answer }
    ensures left { Left t.new (cut_end (view t.old) c end).tables }
{
    match links::split_region_at(t, tables::slot_to(c.at), end) {
        Ok(link) => ControlFlow::Continue(c),
        Err(r) => ControlFlow::Break(Err(r)),
    }
}

// `coalesce`: record q at hand takes in record n behind it, which is freed; else n is at hand.
pub fn merge_at(t: &mut [u64], c: Cursor, q: Region, n: Region) -> Progress
    requires { Sized t.old }
    ensures value { result ≡ (merge_at (view t.old) c q n).answer }
    ensures left { Left t.new (merge_at (view t.old) c q n).tables }
{
    if !counts::mergeable(q, n) {
        return walk_cursors::going(c, q.next, c.start, 0);
    }
    rows::store(t, tables::slot_to(c.at), links::bounded(q, n.end, n.next));
    match links::free(t, tables::slot_to(q.next)) {
        Ok(v) => ControlFlow::Continue(c),
        Err(r) => ControlFlow::Break(Err(r)),
    }
}
