// Neighbours in the sweep of a tracker's records (crate `sweep`): whether a record may stand behind the one before it.

#![tactic(auto)]

ghost use Rattle.std.specs.Prelude.{◌≡◌};
ghost use Rattle.sweep.specs.Sweep.{formed, gap};
ghost use Rattle.sweep_cursors.specs.Sums.{counts_of};
ghost use Rattle.sweep_cursors.specs.Cursors.{cursor_in};
ghost use Rattle.sweep_neighbours.specs.Follows.{record_from, summed, follows};

use sweep_cursors::{Cursor, Sums, counts, events};
use tables::Region;

// Start before end, reach above 0, uncacheable count 0 or 1.
fn formed(q: Region) -> bool
    ensures { result ≡ formed (record_from 0 q) }
{
    q.start < q.end && 0 < q.ref_count && q.uncache_count <= 1
}

// Whether nothing is covered from the last end up to x: all that started has ended, and nothing starts.
fn is_gap(s: &[u64], x: u64, p: Cursor, m: Sums) -> bool
    ensures { result ≡ gap x (cursor_in s.now p) (summed (counts_of m)) }
{
    p.sums.ref_count == m.ref_count && x <= events::next(s, p.place, x)
}

// Whether record q may stand behind b, at whose end the ends passed have the sums m.
pub fn follows(s: &[u64], b: Region, q: Region, p: Cursor, m: Sums) -> bool
    ensures { result ≡ follows (record_from 0 b) (record_from 0 q) (cursor_in s.now p) (counts_of m) }
{
    formed(q)
        && (b.end < q.start && is_gap(s, q.start, p, m) || b.end == q.start && !counts::same(b, q))
}
