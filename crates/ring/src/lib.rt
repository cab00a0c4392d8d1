// The update ring (document 01, "Update ring"): it is lent to a push or a pop, and changed there. What goes by a search is crate `ring_search`'s.

#![tactic(auto)]

ghost use Rattle.std.specs.Prelude.{◌≡◌};
ghost use Rattle.ring.specs.Ring.{permission_of, cleanup_of, after_of, push_of, pop_of};

use sizes::MOST_UPDATES;
use tables::Update;

// The places of the largest ring.
pub const PLACES: usize = MOST_UPDATES + 1;

// What stands in a place: an update, and the marks of the domain that it queues (document 02, request 4).
#[derive(Clone, Copy, Default)]
pub struct Entry {
    pub update: Update,
    pub marks: u64,
}

// `size` places are in use, one more than the ring can hold; those past them are nothing. An array with a size and no `Vec`: nothing here allocates.
#[derive(Clone, Copy)]
pub struct Ring {
    pub places: [Entry; PLACES],
    pub read: usize,
    pub write: usize,
    pub size: usize,
}

pub fn permission(slot: u64, generation: u64, cores: u64, marks: u64) -> Entry
    ensures { result ≡ permission_of slot generation cores marks }
{
    let update = Update {
        kind: Update::PERMISSION,
        a: slot,
        b: generation,
        c: cores,
    };
    Entry { update, marks }
}

pub fn cleanup(start: u64, end: u64) -> Entry
    ensures { result ≡ cleanup_of start end }
{
    let update = Update {
        kind: Update::CLEANUP,
        a: start,
        b: end,
        c: 0,
    };
    Entry { update, marks: 0 }
}

// The place after i in a ring of `size` places.
#[tactic(auto, unfolding(crate::specs::Ring::after_of))]
pub fn after(i: usize, size: usize) -> usize
    ensures { result ≡ after_of i size }
{
    if i < size.saturating_sub(1) { i + 1 } else { 0 }
}

impl Ring {
    // The ring is full where the place after the write place is the read place; then it stays as it is.
    #[tactic(auto, unfolding(crate::specs::Ring::push_of))]
    pub fn push(&mut self, e: Entry) -> bool
        ensures value { result ≡ (push_of self.old e).ok }
        ensures left { self.new ≡ (push_of self.old e).ring }
    {
        let next = after(self.write, self.size);
        if next != self.read && self.write < PLACES {
            self.places[self.write] = e;
            self.write = next;
            return true;
        }
        false
    }

    // The oldest entry, whose place is cleared; none of an empty ring.
    #[tactic(auto, unfolding(crate::specs::Ring::pop_of))]
    pub fn pop(&mut self) -> Option<Entry>
        ensures value { result ≡ (pop_of self.old).item }
        ensures left { self.new ≡ (pop_of self.old).ring }
    {
        if self.read != self.write && self.read < PLACES {
            let entry = self.places[self.read];
            self.places[self.read] = Entry::default();
            self.read = after(self.read, self.size);
            return Some(entry);
        }
        None
    }
}
