// The links of a domain's records: one more, one cut in two, one less.
ghost use Rattle.std.specs.Prelude.{◌≡◌};
ghost use Rattle.tables.specs.View.{view, Sized, Left};
ghost use Rattle.tracker_records.specs.Links.{with_end, with_next, first_link, inserted, split, freed_record};

use answers::Answer;
use pools::Pool;
use refusals::Refusal;
use tables::{DomainHead, Region};

// The link of domain d's first record.
pub fn first(t: &[u64], d: usize) -> u64
    requires { Sized t.now }
    ensures { result ≡ first_link (view t.now) d }
{
    let h = rows::load::<DomainHead>(t, d);
    h.tracker
}

// The record with the end `end` and the link `next`.
pub fn bounded(q: Region, end: u64, next: u64) -> Region
    ensures { result ≡ with_end q end next }
{
    let mut p = q;
    p.end = end;
    p.next = next;
    p
}

// Link `next` behind the record `prev`, or first in domain d where that is 0.
pub fn set_next(t: &mut [u64], d: usize, prev: u64, next: u64)
    requires { Sized t.old }
    ensures { Left t.new (with_next (view t.old) d prev next) }
{
    if prev == 0 {
        let mut h = rows::load::<DomainHead>(t, d);
        h.tracker = next;
        rows::store(t, d, h);
    } else {
        let i = tables::slot_to(prev);
        let q = rows::load::<Region>(t, i);
        rows::store(t, i, bounded(q, q.end, next));
    }
}

// Record q in a slot of its own behind `prev` (`insert_after`, `insert_head`); answers its link, 13 where no slot is free.
pub fn insert(t: &mut [u64], d: usize, prev: u64, q: Region) -> Answer
    requires { Sized t.old }
    ensures value { result ≡ (inserted (view t.old) d prev q).answer }
    ensures left { Left t.new (inserted (view t.old) d prev q).tables }
{
    let h = pools::allocate(t, Pool::Records).ok_or(Refusal::NoTracker)?;
    rows::store(t, h.slot as usize, q);
    let link = tables::link_to(h.slot);
    set_next(t, d, prev, link);
    Ok(link)
}

// Record i is cut in two at address a: the right half takes a new slot (`split_region_at`). Answers the right half's link.
pub fn split_region_at(t: &mut [u64], i: usize, a: u64) -> Answer
    requires { Sized t.old }
    ensures value { result ≡ (split (view t.old) i a).answer }
    ensures left { Left t.new (split (view t.old) i a).tables }
{
    let h = pools::allocate(t, Pool::Records).ok_or(Refusal::NoTracker)?;
    let q = rows::load::<Region>(t, i);
    let mut right = q;
    right.start = a;
    rows::store(t, h.slot as usize, right);
    let link = tables::link_to(h.slot);
    rows::store(t, i, bounded(q, a, link));
    Ok(link)
}

// Frees record i, to which no link leads any more; 16 where its generation is spent.
pub fn free(t: &mut [u64], i: usize) -> Answer
    requires { Sized t.old }
    ensures value { result ≡ (freed_record (view t.old) i).answer }
    ensures left { Left t.new (freed_record (view t.old) i).tables }
{
    pools::free(t, Pool::Records, i)?;
    Ok(0)
}
