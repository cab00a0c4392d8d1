// The readings (document 01, **Reading**). Each follows as many links as there are records at most.

#![tactic(auto)]

ghost use Rattle.std.specs.Prelude.{◌≡◌, ◌+◌, length};
ghost use Rattle.std.specs.Iterator.{YieldsFirst, item_count};
ghost use Rattle.base.specs.Cases.{pick};
ghost use Rattle.tables.specs.View.{view, Sized};
ghost use Rattle.readings.specs.Readings.{records_from, records_of, flag_if, rights_of, meets, largest_reach, found_at, plan_of};

use rights::Rights;
use tables::Region;
use tracker_records::links;

// A record of the permission list. Its three words leave no byte unsettled.
#[repr(C)]
#[derive(Clone, Copy)]
pub struct Permission {
    pub start: u64,
    pub end: u64,
    pub rights: u64,
}

// A record's permission, and the link behind it.
#[derive(Clone, Copy)]
pub struct Found {
    pub p: Permission,
    pub next: u64,
}

// How many records fill a run, the link of the first, and how many there are.
#[derive(Clone, Copy)]
pub struct Plan {
    pub turns: usize,
    pub at: u64,
    pub answer: u64,
}

// A walk over a domain's records, in the order of their links.
#[derive(Drop)]
struct Records<'a> {
    t: &'a [u64],
    at: u64,
    left: usize,
    ghost sized: { Sized t.now },
}

impl<'a> Records<'a> {
    // The records of domain d, as many as there are record slots at most.
    fn of(t: &'a [u64], d: usize) -> Records<'a>
        requires { Sized t.now }
        ensures { records_from result.left (view result.t.now) result.at ≡ records_of (view t.now) d }
    {
        Records {
            t,
            at: links::first(t, d),
            left: words::size(t, sizes::RECORDS),
        }
    }
}

impl<'a> Iterator for Records<'a> {
    type Item = Region;

    ghost next_gives = { YieldsFirst (λ r. records_from r.left (view r.t.now) r.at) };

    ghost remaining = { item_count (λ r. records_from r.left (view r.t.now) r.at) };

    fn next(&mut self) -> Option<Region> {
        if self.left == 0 || self.at == 0 {
            return None;
        }
        let q = rows::load::<Region>(self.t, tables::slot_to(self.at));
        self.at = q.next;
        self.left -= 1;
        Some(q)
    }
}

// ---- Numbers

// The flag where its count is above 0, else none.
fn flag_if(flag: Rights, n: u64) -> Rights
    ensures { result.0 ≡ flag_if flag.0 n }
{
    if 0 < n { flag } else { Rights::NONE }
}

// The rights whose count is above 0.
pub fn get_ops(q: Region) -> u64
    ensures { result ≡ rights_of q }
{
    let ops = flag_if(Rights::READ, q.read_count)
        .union(flag_if(Rights::WRITE, q.write_count))
        .union(flag_if(Rights::EXEC, q.exec_count))
        .union(flag_if(Rights::SUPER, q.super_count))
        .union(flag_if(Rights::UNCACHEABLE, q.uncache_count));
    ops.0 as u64
}

// The reach of a record that begins at `last` or before and ends after `start`, else 0.
fn reach_in(q: Region, start: u64, last: u64) -> u64
    ensures { result ≡ pick (meets start (last + 1) q) q.ref_count 0 }
{
    if start < q.end && q.start <= last {
        q.ref_count
    } else {
        0
    }
}

// The largest such reach in domain d.
pub fn largest_reach(t: &[u64], d: usize, start: u64, last: u64) -> u64
    requires { Sized t.now }
    ensures { result ≡ largest_reach start (last + 1) (records_of (view t.now) d) }
{
    Records::of(t, d).fold(0, |most, q| most.max(reach_in(q, start, last)))
}

// The largest reach of a record that begins before `end` and ends after `start`.
pub fn get_refcount(t: &[u64], d: usize, start: u64, end: u64) -> u64
    requires { Sized t.now }
    ensures { result ≡ largest_reach start end (records_of (view t.now) d) }
{
    if 0 < end {
        largest_reach(t, d, start, end - 1)
    } else {
        0
    }
}

// ---- The permission list

// The number of domain d's records.
fn count(t: &[u64], d: usize) -> u64
    requires { Sized t.now }
    ensures { result ≡ length (records_of (view t.now) d) }
{
    Records::of(t, d).count() as u64
}

// What filling a run of `room` places goes by.
pub fn plan_of(t: &[u64], d: usize, room: usize) -> Plan
    requires { Sized t.now }
    ensures { result ≡ plan_of (view t.now) d room }
{
    let n = count(t, d);
    Plan {
        turns: n.min(room as u64) as usize,
        at: links::first(t, d),
        answer: n,
    }
}

// The permission of the record at link k, and the link behind it.
pub fn found_at(t: &[u64], k: u64) -> Found
    requires { Sized t.now }
    ensures { result ≡ found_at (view t.now) k }
{
    let q = rows::load::<Region>(t, tables::slot_to(k));
    let p = Permission {
        start: q.start,
        end: q.end,
        rights: get_ops(q),
    };
    Found { p, next: q.next }
}
