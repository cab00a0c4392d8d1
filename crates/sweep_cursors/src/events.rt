// A cursor in a run of events, two words each.
ghost use Rattle.std.specs.Prelude.{◌≡◌, drop};
ghost use Rattle.sweep.specs.Sweep.{upto, next};
ghost use Rattle.sound_events.specs.Events.{events_in};
ghost use Rattle.sweep_cursors.specs.Sums.{Low};
ghost use Rattle.sweep_cursors.specs.Cursors.{cursor_in, At, First};

use crate::{Cursor, counts};

// Before the first event.
pub fn start() -> Cursor
    ensures { First result }
{
    Cursor {
        place: 0,
        sums: counts::no_sums(),
    }
}

// Past every event at or below x. No sum is above the number of events passed, so that none wraps.
pub fn upto(s: &[u64], x: u64, mut c: Cursor) -> Cursor
    requires { Low c.place c.sums }
    ensures { At s.now result (upto x (cursor_in s.now c)) }
{
    for i in c.place..s.len() / 2 {
        if x < s[2 * i] {
            return c;
        }
        c = Cursor {
            place: i + 1,
            sums: counts::raise(c.sums, s[2 * i + 1]),
        };
    }
    c
}

// The next event's address from place i on, and at most y.
pub fn next(s: &[u64], i: usize, y: u64) -> u64
    ensures { result ≡ next (drop i (events_in s.now)) y }
{
    if i < s.len() / 2 { s[2 * i].min(y) } else { y }
}
