// One turn of a walk over a domain's records: a step of crate `region`, `gain_turns` or `loss_turns`, by where the range and the record at hand lie.
ghost use Rattle.std.specs.Prelude.{◌≡◌};
ghost use Rattle.tables.specs.View.{view, Sized, Left};
ghost use Rattle.tracker.specs.Walks.{add_at, add_turn, remove_at, remove_turn, merge_turn, turn};

use region::{AccessRights, Way};
use std::ops::ControlFlow;
use tables::Region;
use walk_cursors::{Cursor, Progress};

// `add_region`, with record q at hand: a gap before it is filled, the range's edges cut it, and in the range it is raised.
fn add_at(t: &mut [u64], d: usize, a: AccessRights, c: Cursor, q: Region) -> Progress
    requires { Sized t.old }
    ensures value { result ≡ (add_at (view t.old) d a c q).answer }
    ensures left { Left t.new (add_at (view t.old) d a c q).tables }
{
    if c.start < q.start {
        return gain_turns::fill(t, d, a, c, counts::least(q.start, a.end));
    }
    if q.end <= c.start {
        return walk_cursors::going(c, q.next, c.start, 0);
    }
    if q.start < c.start {
        return region::turns::cut_start(t, c);
    }
    if a.end < q.end {
        return region::turns::cut_end(t, c, a.end);
    }
    gain_turns::raise(t, a, c, q)
}

// A turn of `add_region`, until the range is done.
fn add(t: &mut [u64], d: usize, a: AccessRights, c: Cursor) -> Progress
    requires { Sized t.old }
    ensures value { result ≡ (add_turn (view t.old) d a c).answer }
    ensures left { Left t.new (add_turn (view t.old) d a c).tables }
{
    if a.end <= c.start {
        return ControlFlow::Break(Ok(c.marks));
    }
    if c.at == 0 {
        return gain_turns::fill(t, d, a, c, a.end);
    }
    let q = rows::load::<Region>(t, tables::slot_to(c.at));
    add_at(t, d, a, c, q)
}

// `remove_region`, with record q at hand: the range's edges cut it, and in the range it is lowered.
fn remove_at(t: &mut [u64], d: usize, a: AccessRights, c: Cursor, q: Region) -> Progress
    requires { Sized t.old }
    ensures value { result ≡ (remove_at (view t.old) d a c q).answer }
    ensures left { Left t.new (remove_at (view t.old) d a c q).tables }
{
    if a.end <= q.start {
        return ControlFlow::Break(Ok(c.marks));
    }
    if q.end <= c.start {
        return walk_cursors::going(c, q.next, c.start, 0);
    }
    if q.start < c.start {
        return region::turns::cut_start(t, c);
    }
    if a.end < q.end {
        return region::turns::cut_end(t, c, a.end);
    }
    loss_turns::lower(t, d, a, c, q)
}

// A turn of `remove_region`, until the records end or lie past the range.
fn remove(t: &mut [u64], d: usize, a: AccessRights, c: Cursor) -> Progress
    requires { Sized t.old }
    ensures value { result ≡ (remove_turn (view t.old) d a c).answer }
    ensures left { Left t.new (remove_turn (view t.old) d a c).tables }
{
    if c.at == 0 {
        return ControlFlow::Break(Ok(c.marks));
    }
    let q = rows::load::<Region>(t, tables::slot_to(c.at));
    remove_at(t, d, a, c, q)
}

// A turn of `coalesce`, until no record is behind the one at hand.
fn merge(t: &mut [u64], c: Cursor) -> Progress
    requires { Sized t.old }
    ensures value { result ≡ (merge_turn (view t.old) c).answer }
    ensures left { Left t.new (merge_turn (view t.old) c).tables }
{
    if c.at == 0 {
        return ControlFlow::Break(Ok(c.marks));
    }
    let q = rows::load::<Region>(t, tables::slot_to(c.at));
    if q.next == 0 {
        return ControlFlow::Break(Ok(c.marks));
    }
    let n = rows::load::<Region>(t, tables::slot_to(q.next));
    region::turns::merge_at(t, c, q, n)
}

// A turn of each way.
pub fn turn(t: &mut [u64], d: usize, way: Way, a: AccessRights, c: Cursor) -> Progress
    requires { Sized t.old }
    ensures value { result ≡ (turn way (view t.old) d a c).answer }
    ensures left { Left t.new (turn way (view t.old) d a c).tables }
{
    match way {
        Way::Add => add(t, d, a, c),
        Way::Remove => remove(t, d, a, c),
        Way::Merge => merge(t, c),
    }
}
