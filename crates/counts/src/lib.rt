// The six counts of a tracker's record, by value (region.rs; document 01, **Tracker**). Numbers that no sound tables
// hold stay within 64 bits.

#![tactic(auto)]

ghost use Rattle.std.specs.Prelude.{◌≡◌, ltb};
ghost use Rattle.base.specs.Cases.{pick};
ghost use Rattle.counts.specs.Counts.{up, raised, lowered, mark_if, crossings_of, mergeable_b, made};

use rights::Rights;
use tables::Region;

#[tactic(auto, unfolding(crate::specs::Counts::up))]
fn plus(n: u64, k: u64) -> u64
    ensures { result ≡ up n k }
{
    n.checked_add(k).unwrap_or(n)
}

// The smaller of two numbers.
pub fn least(a: u64, b: u64) -> u64
    ensures { result ≡ pick (ltb a b) a b }
{
    a.min(b)
}

// A new record (`Region::new`), with `next` behind it.
pub fn new(start: u64, end: u64, ops: Rights, next: u64) -> Region
    ensures { result ≡ made start end ops.0 next }
{
    let c = ops.counters();
    Region {
        start,
        end,
        ref_count: 1,
        read_count: c.read_count,
        write_count: c.write_count,
        exec_count: c.exec_count,
        super_count: c.super_count,
        uncache_count: c.uncache_count,
        next,
    }
}

// A gain (`increase_refcount`, `increase_ops`). The uncacheable count stays.
pub fn increase(q: Region, ops: Rights) -> Region
    ensures { result ≡ raised ops.0 q }
{
    let c = ops.counters();
    Region {
        ref_count: plus(q.ref_count, 1),
        read_count: plus(q.read_count, c.read_count),
        write_count: plus(q.write_count, c.write_count),
        exec_count: plus(q.exec_count, c.exec_count),
        super_count: plus(q.super_count, c.super_count),
        ..q
    }
}

// A loss (`decrease_refcount`, `decrease_ops`).
pub fn decrease(q: Region, ops: Rights) -> Region
    ensures { result ≡ lowered ops.0 q }
{
    let c = ops.counters();
    Region {
        ref_count: q.ref_count.saturating_sub(1),
        read_count: q.read_count.saturating_sub(c.read_count),
        write_count: q.write_count.saturating_sub(c.write_count),
        exec_count: q.exec_count.saturating_sub(c.exec_count),
        super_count: q.super_count.saturating_sub(c.super_count),
        ..q
    }
}

// ---- Marks (document 02, request 4)

// of reach and the four rights, bits 0 to 4
pub const REACH: u64 = 1;

pub const READ: u64 = 2;

pub const WRITE: u64 = 4;

pub const EXEC: u64 = 8;

pub const SUPER: u64 = 16;

// The mark where the count went from a to b and so left or came to 0.
fn mark_if(a: u64, b: u64, mark: u64) -> u64
    ensures { result ≡ mark_if a b mark }
{
    if (a == 0) != (b == 0) { mark } else { 0 }
}

// The marks of the counts that left or came to 0, from p's to q's.
pub fn crossings(p: Region, q: Region) -> u64
    ensures { result ≡ crossings_of p q }
{
    let reach = mark_if(p.ref_count, q.ref_count, REACH);
    let read = mark_if(p.read_count, q.read_count, READ);
    let write = mark_if(p.write_count, q.write_count, WRITE);
    let exec = mark_if(p.exec_count, q.exec_count, EXEC);
    let own = mark_if(p.super_count, q.super_count, SUPER);
    reach + read + write + exec + own
}

// Touching neighbours with six equal counts (`same_counts`).
#[tactic(auto, unfolding(crate::specs::Counts::mergeable_b))]
pub fn mergeable(q: Region, n: Region) -> bool
    ensures { result ≡ mergeable_b q n }
{
    q.end == n.start
        && q.ref_count == n.ref_count
        && q.uncache_count == n.uncache_count
        && q.read_count == n.read_count
        && q.write_count == n.write_count
        && q.exec_count == n.exec_count
        && q.super_count == n.super_count
}
