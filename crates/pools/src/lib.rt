// The three pools of the tables: each is the arena in its section.

#![tactic(auto)]

ghost use Rattle.std.specs.Prelude.{◌≡◌, get_or};
ghost use Rattle.words.specs.Cuts.{offset};
ghost use Rattle.sizes.specs.Sizes.{sizes_of, widths};
ghost use Rattle.tables.specs.View.{view, Sized, Left};
ghost use Rattle.arena.specs.Arena.{given, allocated, answer_to, freed, is_free_b, live_b, capacity_of, new_arena};
ghost use Rattle.pools.specs.Pools.{pool_section, pool_slots, pool_of, with_pool, PoolAt};
ghost use Rattle.pools.specs.Wiping.{wiped, slot_freed};

use refusals::Refusal;
use sizes::{HEADER_WIDTH, POOL_HEAD};
use tables::Handle;

#[derive(Clone, Copy)]
pub enum Pool {
    Domains,
    Regions,
    Records,
}

// The words of a pool, from `start` up to `end`.
#[derive(Clone, Copy)]
pub struct Span {
    pub start: usize,
    pub end: usize,
    pub slots: usize,
}

fn slots_of(t: &[u64], q: Pool) -> usize
    ensures { result ≡ pool_slots (sizes_of t.now) q }
{
    match q {
        Pool::Domains => words::size(t, sizes::DOMAINS),
        Pool::Regions => words::size(t, sizes::REGIONS),
        Pool::Records => words::size(t, sizes::RECORDS),
    }
}

// The domain pool follows the header, and each pool the one before it.
fn start_of(t: &[u64], q: Pool) -> usize
    requires { Sized t.now }
    ensures { result ≡ offset (widths (sizes_of t.now)) (pool_section q) }
{
    let z = sizes::read_sizes(t);
    match q {
        Pool::Domains => HEADER_WIDTH,
        Pool::Regions => sizes::region_pool_at(z),
        Pool::Records => sizes::record_pool_at(z),
    }
}

pub fn span_of(t: &[u64], q: Pool) -> Span
    requires { Sized t.now }
    ensures { PoolAt t.now q result }
{
    let start = start_of(t, q);
    let slots = slots_of(t, q);
    Span {
        start,
        end: start + (POOL_HEAD + 2 * slots),
        slots,
    }
}

pub fn allocate(t: &mut [u64], q: Pool) -> Option<Handle>
    requires { Sized t.old }
    ensures value { result ≡ given (pool_of (view t.old) q) }
    ensures left { Left t.new (with_pool (view t.old) q (allocated (pool_of (view t.old) q))) }
{
    let s = span_of(t, q);
    free_list::allocate(&mut t[s.start..s.end], s.slots)
}

fn push(t: &mut [u64], q: Pool, i: usize) -> Result<(), Refusal>
    requires { Sized t.old }
    ensures value { result ≡ answer_to (pool_of (view t.old) q) i }
    ensures left { Left t.new (with_pool (view t.old) q (freed (pool_of (view t.old) q) i)) }
{
    let s = span_of(t, q);
    free_list::free(&mut t[s.start..s.end], s.slots, i)
}

// Makes the rows of slot i 0.
fn wipe(t: &mut [u64], q: Pool, i: usize)
    requires { Sized t.old }
    ensures { Left t.new (wiped (view t.old) q i) }
{
    match q {
        Pool::Domains => wiping::wipe_domain(t, i),
        Pool::Regions => wiping::wipe_region(t, i),
        Pool::Records => wiping::wipe_record(t, i),
    }
}

// Frees slot i and wipes its record.
pub fn free(t: &mut [u64], q: Pool, i: usize) -> Result<(), Refusal>
    requires { Sized t.old }
    ensures value { result ≡ answer_to (pool_of (view t.old) q) i }
    ensures left { Left t.new (slot_freed (view t.old) q i) }
{
    push(t, q, i)?;
    wipe(t, q, i);
    Ok(())
}

pub fn fresh(t: &mut [u64], q: Pool)
    requires { Sized t.old }
    ensures { Left t.new (with_pool (view t.old) q (new_arena (pool_slots (sizes_of t.old) q))) }
{
    let s = span_of(t, q);
    free_list::fresh(&mut t[s.start..s.end], s.slots);
}

pub fn is_live(t: &[u64], q: Pool, h: Handle) -> bool
    requires { Sized t.now }
    ensures { result ≡ live_b (pool_of (view t.now) q) h }
{
    let s = span_of(t, q);
    arena::is_live(&t[s.start..s.end], s.slots, h)
}

pub fn capacity(t: &[u64], q: Pool) -> usize
    requires { Sized t.now }
    ensures { result ≡ capacity_of (pool_of (view t.now) q) }
{
    let s = span_of(t, q);
    arena::capacity(&t[s.start..s.end], s.slots)
}

// Whether slot i is free.
pub fn is_free(t: &[u64], q: Pool, i: usize) -> bool
    requires { Sized t.now }
    ensures { result ≡ is_free_b (pool_of (view t.now) q) i }
{
    let s = span_of(t, q);
    arena::is_free(&t[s.start..s.end], s.slots, i)
}

// The generation that slot i has now.
pub fn generation(t: &[u64], q: Pool, i: usize) -> u64
    requires { Sized t.now }
    ensures { result ≡ get_or (pool_of (view t.now) q).gens i 0 }
{
    let s = span_of(t, q);
    arena::generation(&t[s.start..s.end], s.slots, i)
}

// How many slots are in use.
pub fn count(t: &[u64], q: Pool) -> u64
    requires { Sized t.now }
    ensures { result ≡ (pool_of (view t.now) q).count }
{
    let s = span_of(t, q);
    words::word(&t[s.start..s.end], 1)
}
