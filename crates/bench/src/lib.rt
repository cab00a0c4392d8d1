// Steps of the engine on lent tables, exported so that they can be timed (bench/README.md). They test no soundness and put nothing back: what
// document 01 demands of calls is not promised of them. Each tests the length first; where it is wrong the answer is `NOTHING` and no word changes.

#![tactic(auto)]

ghost use Rattle.std.specs.Prelude.{◌≡◌, length, replicate};
ghost use Rattle.words.specs.Copies.{copied};
ghost use Rattle.tables.specs.Tables.{with_region_pool};
ghost use Rattle.tables.specs.View.{view};
ghost use Rattle.arena.specs.Arena.{given, allocated, answer_to};
ghost use Rattle.pools.specs.declared.Pool.{Pool};
ghost use Rattle.pools.specs.Wiping.{slot_freed};
ghost use Rattle.slot_list.specs.Lists.{give_slot};
ghost use Rattle.stored_slots.specs.Record.{list_at};
ghost use Rattle.slots.specs.Capas.{with_capa, without_capa};
ghost use Rattle.ring.specs.Ring.{cleanup_of, push_of, pop_of};
ghost use Rattle.ring_search.specs.Queueing.{queue_of};
ghost use Rattle.stored_ring.specs.Stored.{ring_of, with_ring_of};
ghost use Rattle.bench.specs.Steps.{flag_of, inserted_of, given_of, freed_of, popped_of, capa_of, sizes_of, reply, left, makes, made};

pub mod trackers;

use pools::Pool;
use refusals::Refusal;
use ring::Entry;
use sizes::Sizes;
use tables::{Handle, Slot, Update};

pub const NOTHING: u64 = 18446744073709551615;

// ---- Answers as words

fn flag(b: bool) -> u64
    ensures { result ≡ flag_of b }
{
    if b { 1 } else { 0 }
}

fn inserted(x: Option<usize>) -> u64
    ensures { result ≡ inserted_of x }
{
    match x {
        Some(i) => i as u64,
        None => NOTHING,
    }
}

fn given_slot(x: Option<Handle>) -> u64
    ensures { result ≡ given_of x }
{
    match x {
        Some(h) => h.slot,
        None => NOTHING,
    }
}

fn freed(x: Result<(), Refusal>) -> u64
    ensures { result ≡ freed_of x }
{
    match x {
        Ok(()) => 1,
        Err(_) => 0,
    }
}

fn popped(x: Option<Entry>) -> u64
    ensures { result ≡ popped_of x }
{
    match x {
        Some(e) => e.update.kind,
        None => Update::NOTHING,
    }
}

// ---- A domain's slot list

#[unsafe(no_mangle)]
pub extern "C" fn bench_insert(
    t: &mut [u64],
    d: usize,
    kind: u64,
    slot: u64,
    generation: u64,
) -> u64
    ensures { (result ≡ reply t.old (inserted_of (give_slot (list_at (view t.old) d)).at))
        × (t.new ≡ left t.old (with_capa (view t.old) d (capa_of kind slot generation))) }
{
    if sizes::is_sized(t) {
        let handle = Handle { slot, generation };
        return inserted(slots::insert_capa(t, d, Slot { kind, handle }));
    }
    NOTHING
}

#[unsafe(no_mangle)]
pub extern "C" fn bench_remove(t: &mut [u64], d: usize, i: usize) -> u64
    ensures { (result ≡ reply t.old 1) × (t.new ≡ left t.old (without_capa (view t.old) d i)) }
{
    if sizes::is_sized(t) {
        slots::remove_capa(t, d, i);
        return 1;
    }
    NOTHING
}

// ---- The ring

#[unsafe(no_mangle)]
pub extern "C" fn bench_queue(
    t: &mut [u64],
    slot: u64,
    generation: u64,
    cores: u64,
    marks: u64,
) -> u64
    ensures { (result ≡ reply t.old (flag_of (queue_of (ring_of (view t.old)) slot generation cores marks).ok))
        × (t.new ≡ left t.old (with_ring_of (view t.old) (queue_of (ring_of (view t.old)) slot generation cores marks).ring)) }
{
    if sizes::is_sized(t) {
        return flag(update::queue_domain(t, slot, generation, cores, marks));
    }
    NOTHING
}

#[unsafe(no_mangle)]
pub extern "C" fn bench_push(t: &mut [u64], start: u64, end: u64) -> u64
    ensures { (result ≡ reply t.old (flag_of (push_of (ring_of (view t.old)) (cleanup_of start end)).ok))
        × (t.new ≡ left t.old (with_ring_of (view t.old) (push_of (ring_of (view t.old)) (cleanup_of start end)).ring)) }
{
    if sizes::is_sized(t) {
        return flag(update::push_cleanup(t, start, end));
    }
    NOTHING
}

// The kind of the update that is popped, 0 for none.
#[unsafe(no_mangle)]
pub extern "C" fn bench_pop(t: &mut [u64]) -> u64
    ensures { (result ≡ reply t.old (popped_of (pop_of (ring_of (view t.old))).item))
        × (t.new ≡ left t.old (with_ring_of (view t.old) (pop_of (ring_of (view t.old))).ring)) }
{
    if sizes::is_sized(t) {
        return popped(update::pop_update(t));
    }
    NOTHING
}

// ---- The region pool

#[unsafe(no_mangle)]
pub extern "C" fn bench_allocate(t: &mut [u64]) -> u64
    ensures { (result ≡ reply t.old (given_of (given (view t.old).region_pool)))
        × (t.new ≡ left t.old (with_region_pool (view t.old) (allocated (view t.old).region_pool))) }
{
    if sizes::is_sized(t) {
        return given_slot(pools::allocate(t, Pool::Regions));
    }
    NOTHING
}

#[unsafe(no_mangle)]
pub extern "C" fn bench_free(t: &mut [u64], i: usize) -> u64
    ensures { (result ≡ reply t.old (freed_of (answer_to (view t.old).region_pool i)))
        × (t.new ≡ left t.old (slot_freed (view t.old) Pool.Regions i)) }
{
    if sizes::is_sized(t) {
        return freed(pools::free(t, Pool::Regions, i));
    }
    NOTHING
}

// ---- Whole tables

// Empty tables; `NOTHING` where the sizes are past their limits or ask for another length.
#[unsafe(no_mangle)]
pub extern "C" fn bench_make(
    t: &mut [u64],
    domains: usize,
    slots: usize,
    regions: usize,
    records: usize,
    updates: usize,
) -> u64
    ensures { (result ≡ makes t.old (sizes_of domains slots regions records updates))
        × (t.new ≡ made t.old (sizes_of domains slots regions records updates)) }
{
    let z = Sizes {
        domains,
        slots,
        regions,
        records,
        updates,
    };
    if sizes::limits_hold(z) {
        if t.len() == sizes::total_of(z) {
            making::make_empty(t, z);
            return 1;
        }
    }
    NOTHING
}

#[unsafe(no_mangle)]
pub extern "C" fn bench_copy(from: &[u64], to: &mut [u64])
    ensures { to.new ≡ copied from.now to.old }
{
    words::copy(from, to);
}

#[unsafe(no_mangle)]
pub extern "C" fn bench_clear(t: &mut [u64])
    ensures { t.new ≡ replicate (length t.old) 0 }
{
    words::clear(t);
}
