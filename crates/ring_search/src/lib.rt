// The search for a domain in the update ring (document 01, "Update ring"), and a domain queued: one that is there already gathers marks, another is pushed.

#![tactic(auto)]

ghost use Rattle.std.specs.Prelude.{◌≡◌};
ghost use Rattle.ring_search.specs.Queueing.{names_of, place_of, queue_of};

use ring::{PLACES, Ring};
use tables::Update;

// Whether it is a permission update of the domain with that handle.
#[tactic(auto, unfolding(crate::specs::Queueing::names_of))]
fn names(u: Update, slot: u64, generation: u64) -> bool
    ensures { result ≡ names_of u slot generation }
{
    u.kind == Update::PERMISSION && u.a == slot && u.b == generation
}

// The place of the domain's permission update between the read place and the write place; the write place where there is none.
pub fn place_of(ring: &Ring, slot: u64, generation: u64) -> usize
    ensures { result ≡ place_of ring.now slot generation }
{
    let mut i = ring.read;
    for _ in 0..PLACES {
        if i == ring.write || i >= PLACES {
            break;
        }
        if names(ring.places[i].update, slot, generation) {
            return i;
        }
        i = ring::after(i, ring.size);
    }
    ring.write
}

// Queues the domain with its core map and marks. Where it is queued already, the marks join those that it has, and nothing else
// changes: no room is asked.
#[tactic(auto, unfolding(crate::specs::Queueing::queue_of))]
pub fn queue(ring: &mut Ring, slot: u64, generation: u64, cores: u64, marks: u64) -> bool
    ensures value { result ≡ (queue_of ring.old slot generation cores marks).ok }
    ensures left { ring.new ≡ (queue_of ring.old slot generation cores marks).ring }
{
    let at = place_of(ring, slot, generation);
    if at != ring.write && at < PLACES {
        ring.places[at].marks |= marks;
        return true;
    }
    ring.push(ring::permission(slot, generation, cores, marks))
}
