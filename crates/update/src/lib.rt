// The steps on the ring in the tables: it is loaded, lent to the step, and the place that the step can change stored.

#![tactic(auto)]

ghost use Rattle.std.specs.Prelude.{◌≡◌};
ghost use Rattle.tables.specs.View.{view, Sized, Left};
ghost use Rattle.ring.specs.Ring.{cleanup_of, push_of, pop_of};
ghost use Rattle.ring_search.specs.Queueing.{queue_of};
ghost use Rattle.stored_ring.specs.Stored.{ring_of, with_ring_of};

use ring::{Entry, cleanup};

// Queues the domain with its core map and marks, or gathers the marks where it is queued already; false where there is no room.
pub fn queue_domain(t: &mut [u64], slot: u64, generation: u64, cores: u64, marks: u64) -> bool
    requires { Sized t.old }
    ensures value { result ≡ (queue_of (ring_of (view t.old)) slot generation cores marks).ok }
    ensures left { Left t.new (with_ring_of (view t.old) (queue_of (ring_of (view t.old)) slot generation cores marks).ring) }
{
    let mut ring = stored_ring::load_ring(t);
    let at = ring_search::place_of(&ring, slot, generation);
    let ok = ring_search::queue(&mut ring, slot, generation, cores, marks);
    stored_ring::store_place(t, at, &ring);
    ok
}

// Queues start and end for cleanup; false where the ring is full.
pub fn push_cleanup(t: &mut [u64], start: u64, end: u64) -> bool
    requires { Sized t.old }
    ensures value { result ≡ (push_of (ring_of (view t.old)) (cleanup_of start end)).ok }
    ensures left { Left t.new (with_ring_of (view t.old) (push_of (ring_of (view t.old)) (cleanup_of start end)).ring) }
{
    let mut ring = stored_ring::load_ring(t);
    let at = ring.write;
    let ok = ring.push(cleanup(start, end));
    stored_ring::store_place(t, at, &ring);
    ok
}

// Pop of an empty ring answers none.
pub fn pop_update(t: &mut [u64]) -> Option<Entry>
    requires { Sized t.old }
    ensures value { result ≡ (pop_of (ring_of (view t.old))).item }
    ensures left { Left t.new (with_ring_of (view t.old) (pop_of (ring_of (view t.old))).ring) }
{
    let mut ring = stored_ring::load_ring(t);
    let at = ring.read;
    let item = ring.pop();
    stored_ring::store_place(t, at, &ring);
    item
}
