// A new domain (`Domain::new`): an empty list and an empty tracker, and an interface with all three bits (document 02,
// request 2).

#![tactic(auto)]

ghost use Rattle.std.specs.Prelude.{◌≡◌};
ghost use Rattle.tables.specs.View.{view, Sized, Left};
ghost use Rattle.new_domain.specs.Opened.{fresh_list, new_domain};
ghost use Rattle.new_domain.specs.Fresh.{fresh_slot};

use answers::Answer;
use pools::Pool;
use refusals::Refusal;
use sizes::MOST_SLOTS;
use slot_list::SlotList;
use tables::{DomainHead, Interface, Slot};

// Place i of a list of n free slots: the next one stands behind it, and 0 behind the last.
fn fresh_slot(n: usize, i: usize) -> Slot
    ensures { result ≡ fresh_slot n i }
{
    if i < n {
        let k = i + 1;
        if k < n {
            return slot_list::free_slot(k as u64);
        }
        return slot_list::free_slot(0);
    }
    Slot::default()
}

// `FreeList::new`.
pub fn fresh_list(n: usize) -> SlotList
    ensures { result ≡ fresh_list n }
{
    let mut slots = [Slot::default(); MOST_SLOTS];
    for i in 0..MOST_SLOTS {
        slots[i] = fresh_slot(n, i);
    }
    SlotList {
        slots,
        head: 0,
        count: 0,
        size: n,
    }
}

// With the link of its manager; the answer is the slot, 15 where none is free.
pub fn new_domain(t: &mut [u64], manager: u64, cores: u64) -> Answer
    requires { Sized t.old }
    ensures value { result ≡ (new_domain manager cores (view t.old)).answer }
    ensures left { Left t.new (new_domain manager cores (view t.old)).tables }
{
    let n = words::size(t, sizes::SLOTS);
    let h = pools::allocate(t, Pool::Domains).ok_or(Refusal::NoDomainRoom)?;
    let i = h.slot as usize;
    let head = DomainHead {
        manager,
        cores,
        tracker: 0,
        head: 0,
        count: 0,
    };
    rows::store(t, i, head);
    stored_slots::store_list(t, i, fresh_list(n));
    let interface = Interface {
        word: Interface::OPEN,
        frozen: 0,
    };
    rows::store(t, i, interface);
    Ok(h.slot)
}
