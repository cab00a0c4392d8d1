// The tracker of a domain (`RegionTracker`; document 01, **Tracker**): a range gained or lost by walks over records.
// Where a walk is, is crate `walk_cursors`'; its definitions, and what a turn does to one record, are crate `region`'s.

#![tactic(auto)]

pub mod turns;

ghost use Rattle.std.specs.Prelude.{◌≡◌};
ghost use Rattle.tables.specs.View.{view, Sized, Left};
ghost use Rattle.tracker.specs.Walks.{walked, add_region, remove_region};

use answers::Answer;
use refusals::Refusal;
use region::{AccessRights, Way};
use std::ops::ControlFlow;
use tracker_records::links;
use walk_cursors::Cursor;

// A walk from the first record on. The bound on its turns is met only where links go round.
fn walk(t: &mut [u64], d: usize, way: Way, a: AccessRights, marks: u64) -> Answer
    requires { Sized t.old }
    ensures value { result ≡ (walked way d a marks (view t.old)).answer }
    ensures left { Left t.new (walked way d a marks (view t.old)).tables }
{
    let most = 3 * words::size(t, sizes::RECORDS) + 3;
    let mut c = Cursor {
        prev: 0,
        at: links::first(t, d),
        start: a.start,
        marks,
    };
    for _ in 0..most {
        match turns::turn(t, d, way, a, c) {
            ControlFlow::Continue(next) => c = next,
            ControlFlow::Break(answer) => return answer,
        }
    }
    Err(Refusal::Memory)
}

// Domain d gains the range; answers the marks of the counts that left or came to 0.
pub fn add_region(t: &mut [u64], d: usize, a: AccessRights) -> Answer
    requires { Sized t.old }
    ensures value { result ≡ (add_region d a (view t.old)).answer }
    ensures left { Left t.new (add_region d a (view t.old)).tables }
{
    let marks = walk(t, d, Way::Add, a, 0)?;
    walk(t, d, Way::Merge, a, marks)
}

// Domain d loses the range.
pub fn remove_region(t: &mut [u64], d: usize, a: AccessRights) -> Answer
    requires { Sized t.old }
    ensures value { result ≡ (remove_region d a (view t.old)).answer }
    ensures left { Left t.new (remove_region d a (view t.old)).tables }
{
    let marks = walk(t, d, Way::Remove, a, 0)?;
    walk(t, d, Way::Merge, a, marks)
}
