// Where a walk over a tracker's records is (region.rs; document 01, **Tracker**), and where it goes on. A link is a record's slot + 1, or 0 for none.

#![tactic(auto)]

ghost use Rattle.std.specs.Prelude.{◌≡◌};
ghost use Rattle.std.proofs.Common.{Continue};
ghost use Rattle.walk_cursors.specs.Cursors.{next_of, dropped_of};

use answers::Answer;
use std::ops::ControlFlow;

// Where a walk is: the links of the record before and of the record at hand, the address from which the range is still to be
// done, and the marks of the counts that left or came to 0 so far (`PermissionChange`; document 02, request 4).
#[derive(Clone, Copy)]
pub struct Cursor {
    pub prev: u64,
    pub at: u64,
    pub start: u64,
    pub marks: u64,
}

// What one turn of a walk comes to: it goes on from a cursor, or is over with the walk's answer.
pub type Progress = ControlFlow<Answer, Cursor>;

// On to the record behind the one at hand, with the range done up to `start`.
pub fn going(c: Cursor, next: u64, start: u64, marks: u64) -> Progress
    ensures { result ≡ Continue (next_of c next start marks) }
{
    ControlFlow::Continue(Cursor {
        prev: c.at,
        at: next,
        start,
        marks: c.marks | marks,
    })
}

// The record at hand is gone.
pub fn dropped(c: Cursor, next: u64, marks: u64) -> Progress
    ensures { result ≡ Continue (dropped_of c next marks) }
{
    ControlFlow::Continue(Cursor {
        prev: c.prev,
        at: next,
        start: c.start,
        marks: c.marks | marks,
    })
}
