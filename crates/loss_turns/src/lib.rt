// The turn of a walk that removes a range (document 01, **Tracker**), where a record lies in the range.

#![tactic(auto)]

ghost use Rattle.std.specs.Prelude.{◌≡◌};
ghost use Rattle.tables.specs.View.{view, Sized, Left};
ghost use Rattle.loss_turns.specs.Turns.{lower_turn};

use region::AccessRights;
use std::ops::ControlFlow;
use tables::Region;
use tracker_records::links;
use walk_cursors::{Cursor, Progress};

// The record at hand loses, and at reach 0 it is dropped at once.
pub fn lower(t: &mut [u64], d: usize, a: AccessRights, c: Cursor, q: Region) -> Progress
    requires { Sized t.old }
    ensures value { result ≡ (lower_turn (view t.old) d a c q).answer }
    ensures left { Left t.new (lower_turn (view t.old) d a c q).tables }
{
    let p = counts::decrease(q, a.ops);
    let i = tables::slot_to(c.at);
    if p.ref_count != 0 {
        rows::store(t, i, p);
        return walk_cursors::going(c, q.next, c.start, counts::crossings(q, p));
    }
    links::set_next(t, d, c.prev, q.next);
    match links::free(t, i) {
        Ok(v) => walk_cursors::dropped(c, q.next, counts::crossings(q, Region::default())),
        Err(r) => ControlFlow::Break(Err(r)),
    }
}
