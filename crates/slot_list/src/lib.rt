// A domain's slot list by value (free_list.rs). Free slots form a stack by their handles' slots; 0 stands behind the last (`FreeList`).

#![tactic(auto)]

ghost use Rattle.std.specs.Prelude.{◌≡◌, ◌-◌};
ghost use Rattle.slot_list.specs.Lists.{free_slot, is_free_b, slot_in, put_in, empty_slot, give_slot, take_slot};

use sizes::MOST_SLOTS;
use tables::{Handle, Slot};

// The list with its free list: `head` is the free slot that is given next, `count` the slots in use.
// The places past `size` hold the slot that is all zero. An array with a size and no `Vec`: nothing here allocates.
#[derive(Clone, Copy)]
pub struct SlotList {
    pub slots: [Slot; MOST_SLOTS],
    pub head: u64,
    pub count: u64,
    pub size: usize,
}

// What giving answers: the slot, none where the list is full; and the list where it is in use.
#[derive(Clone, Copy)]
pub struct Given {
    pub at: Option<usize>,
    pub list: SlotList,
}

// A free slot, with the free slot `next` after it.
pub fn free_slot(next: u64) -> Slot
    ensures { result ≡ free_slot next }
{
    let handle = Handle {
        slot: next,
        generation: 0,
    };
    Slot {
        kind: Slot::FREE,
        handle,
    }
}

pub fn is_free(x: Slot) -> bool
    ensures { result ≡ is_free_b x }
{
    x.kind == Slot::FREE
}

pub fn less_one(n: u64) -> u64
    ensures { result ≡ n - 1 }
{
    n.saturating_sub(1)
}

// Slot i; a number too large answers a free slot.
pub fn slot_of(list: SlotList, i: usize) -> Slot
    ensures { result ≡ slot_in list i }
{
    if i < list.size && i < MOST_SLOTS {
        list.slots[i]
    } else {
        free_slot(0)
    }
}

// A capability into slot i.
pub fn put(mut list: SlotList, i: usize, x: Slot) -> SlotList
    ensures { result ≡ put_in list i x }
{
    if i < MOST_SLOTS {
        list.slots[i] = x;
    }
    list
}

// `Capa::None` into slot i, where that is in use.
pub fn empty(list: SlotList, i: usize) -> SlotList
    ensures { result ≡ empty_slot list i }
{
    if is_free(slot_of(list, i)) {
        return list;
    }
    put(list, i, Slot::default())
}

// `FreeList::allocate`: the slot at the head, which holds None until a capability is put there.
pub fn give(list: SlotList) -> Given
    ensures { result ≡ give_slot list }
{
    let i = list.head as usize;
    let x = slot_of(list, i);
    if i < list.size && (list.count as usize) < list.size && is_free(x) {
        let mut out = put(list, i, Slot::default());
        out.head = x.handle.slot;
        out.count = list.count + 1;
        return Given {
            at: Some(i),
            list: out,
        };
    }
    Given { at: None, list }
}

// `FreeList::free`: slot i is the head, with the old head behind it; nothing where it is not in use.
pub fn take(list: SlotList, i: usize) -> SlotList
    ensures { result ≡ take_slot list i }
{
    if is_free(slot_of(list, i)) {
        return list;
    }
    let mut out = put(list, i, free_slot(list.head));
    out.head = i as u64;
    out.count = less_one(list.count);
    out
}
