// Turns of a walk that adds a range (document 01, **Tracker**): a gap becomes a record, a record in the range gains.

#![tactic(auto)]

ghost use Rattle.std.specs.Prelude.{◌≡◌};
ghost use Rattle.tables.specs.View.{view, Sized, Left};
ghost use Rattle.gain_turns.specs.Turns.{fill_turn, raise_turn};

use region::AccessRights;
use std::ops::ControlFlow;
use tables::Region;
use tracker_records::links;
use walk_cursors::{Cursor, Progress};

// A gap before the record at hand becomes a record up to `end`, whose counts were 0.
pub fn fill(t: &mut [u64], d: usize, a: AccessRights, c: Cursor, end: u64) -> Progress
    requires { Sized t.old }
    ensures value { result ≡ (fill_turn (view t.old) d a c end).answer }
    ensures left { Left t.new (fill_turn (view t.old) d a c end).tables }
{
    let q = counts::new(c.start, end, a.ops, c.at);
    match links::insert(t, d, c.prev, q) {
        Ok(link) => ControlFlow::Continue(Cursor {
            prev: link,
            at: c.at,
            start: end,
            marks: c.marks | counts::crossings(Region::default(), q),
        }),
        Err(r) => ControlFlow::Break(Err(r)),
    }
}

// The record at hand lies in the range and gains.
pub fn raise(t: &mut [u64], a: AccessRights, c: Cursor, q: Region) -> Progress
    requires { Sized t.old }
    ensures value { result ≡ (raise_turn (view t.old) a c q).answer }
    ensures left { Left t.new (raise_turn (view t.old) a c q).tables }
{
    let p = counts::increase(q, a.ops);
    rows::store(t, tables::slot_to(c.at), p);
    walk_cursors::going(c, q.next, q.end, counts::crossings(q, p))
}
