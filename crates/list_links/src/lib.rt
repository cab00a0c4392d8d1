// What is read of a list in lent tables: free stacks and trackers by their links. The words that a list stands in are
// taken once; a slot is read from them by its number.

#![tactic(auto)]

ghost use Rattle.std.specs.Prelude.{◌≡◌};
ghost use Rattle.tables.specs.View.{view, Sized};
ghost use Rattle.list_links.specs.Walk.{link_to};
ghost use Rattle.list_links.specs.Stacks.{slots_of, may_meet, top_of};
ghost use Rattle.list_links.specs.Reads.{top_in, Lent, link_step, slot_step, record_step, step_in};

use pools::Pool;
use tables::{DomainHead, Region, Slot};

// The free stacks of the three pools and of domain d's list, and the records that are in use. An enum and no closure: the definitions take it as a value.
#[derive(Clone, Copy)]
pub enum Stack {
    Domains,
    Regions,
    Records,
    Slots(usize),
    Trackers,
}

// The slot that is given next, and how many are in use.
#[derive(Clone, Copy)]
pub struct Top {
    pub head: u64,
    pub count: u64,
}

// What a walk reads of a slot: whether it may be met, and the link behind it. No `Option`: the contracts say the link in both cases.
#[derive(Clone, Copy)]
pub struct Step {
    pub may: bool,
    pub next: u64,
}

pub fn link_to(n: usize, x: u64) -> u64
    ensures { result ≡ link_to n x }
{
    if (x as usize) < n { x + 1 } else { 0 }
}

// ---- How many slots, and the top

fn top_in(t: &[u64], q: Pool) -> Top
    requires { Sized t.now }
    ensures { result ≡ top_in (view t.now) q }
{
    let s = pools::span_of(t, q);
    let p = &t[s.start..s.end];
    Top {
        head: words::word(p, 0),
        count: words::word(p, 1),
    }
}

#[tactic(auto, unfolding(tables::specs::View::view, tables::specs::View::of_parts, sizes::specs::Sizes::sizes_of))]
pub fn slots_of(t: &[u64], s: Stack) -> usize
    ensures { result ≡ slots_of (view t.now) s }
{
    match s {
        Stack::Domains => words::size(t, sizes::DOMAINS),
        Stack::Regions => words::size(t, sizes::REGIONS),
        Stack::Records | Stack::Trackers => words::size(t, sizes::RECORDS),
        Stack::Slots(_) => words::size(t, sizes::SLOTS),
    }
}

#[tactic(auto, unfolding(crate::specs::Stacks::top_of))]
pub fn top_of(t: &[u64], s: Stack) -> Top
    requires { Sized t.now }
    ensures { result ≡ top_of (view t.now) s }
{
    match s {
        Stack::Domains => top_in(t, Pool::Domains),
        Stack::Regions => top_in(t, Pool::Regions),
        Stack::Records => top_in(t, Pool::Records),
        Stack::Slots(d) => {
            let h = rows::load::<DomainHead>(t, d);
            Top {
                head: h.head,
                count: h.count,
            }
        }
        Stack::Trackers => Top { head: 0, count: 0 },
    }
}

// ---- A slot

// The words that tell whether a slot may be met: a pool's links, or a domain's slots.
pub fn words_of<'a>(t: &'a [u64], s: Stack) -> &'a [u64]
    requires { Sized t.now }
    ensures { Lent (view t.now) s result.now }
{
    match s {
        Stack::Domains => sections::links_of(t, Pool::Domains),
        Stack::Regions => sections::links_of(t, Pool::Regions),
        Stack::Records | Stack::Trackers => sections::links_of(t, Pool::Records),
        Stack::Slots(d) => sections::slots_of(t, d),
    }
}

#[tactic(auto, unfolding(crate::specs::Reads::link_step))]
fn link_step(p: &[u64], n: usize, i: usize) -> Step
    ensures { result ≡ link_step p.now n i }
{
    let next = words::word(p, i);
    Step {
        may: i < n && 0 < next,
        next,
    }
}

#[tactic(auto, unfolding(crate::specs::Reads::slot_step))]
fn slot_step(p: &[u64], n: usize, i: usize) -> Step
    ensures { result ≡ slot_step p.now n i }
{
    let x = sections::row_in::<Slot>(p, i);
    Step {
        may: i < n && x.kind == Slot::FREE,
        next: link_to(n, x.handle.slot),
    }
}

#[tactic(auto, unfolding(crate::specs::Reads::record_step))]
fn record_step(p: &[u64], records: &[u64], n: usize, i: usize) -> Step
    ensures { result ≡ record_step p.now records.now n i }
{
    let free = words::word(p, i);
    Step {
        may: i < n && free == 0,
        next: sections::row_in::<Region>(records, i).next,
    }
}

// Slot i of n, from the words p of `words_of`; trackers go on along the records.
#[tactic(auto, unfolding(crate::specs::Reads::step_in))]
pub fn step_at(s: Stack, p: &[u64], records: &[u64], n: usize, i: usize) -> Step
    ensures { result ≡ step_in s p.now records.now n i }
{
    match s {
        Stack::Domains | Stack::Regions | Stack::Records => link_step(p, n, i),
        Stack::Slots(_) => slot_step(p, n, i),
        Stack::Trackers => record_step(p, records, n, i),
    }
}

pub fn may_meet(t: &[u64], s: Stack, i: usize) -> bool
    requires { Sized t.now }
    ensures { result ≡ may_meet (view t.now) s i }
{
    let p = words_of(t, s);
    let records = sections::rows_of::<Region>(t);
    step_at(s, p, records, slots_of(t, s), i).may
}
