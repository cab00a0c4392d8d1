// The capabilities of domain d, by the numbers of their slots.
ghost use Rattle.std.specs.Prelude.{◌≡◌};
ghost use Rattle.tables.specs.View.{view, Sized, Left};
ghost use Rattle.slot_list.specs.Lists.{give_slot};
ghost use Rattle.stored_slots.specs.Record.{list_at};
ghost use Rattle.slots.specs.Capas.{room_b, with_capacity, with_capa, without_capa, with_empty, capa_at};

use tables::{DomainHead, Slot};

// Whether a slot is free.
fn has_room(t: &[u64], d: usize) -> bool
    requires { Sized t.now }
    ensures { result ≡ room_b (view t.now) d }
{
    let h = rows::load::<DomainHead>(t, d);
    let room = (h.count as usize) < words::size(t, sizes::SLOTS);
    d < words::size(t, sizes::DOMAINS) && room
}

// Whether a slot is free, a full list being swept first (document 01, 12 NoLocal).
pub fn has_capacity_for(t: &mut [u64], d: usize) -> bool
    requires { Sized t.old }
    ensures value { result ≡ room_b (with_capacity (view t.old) d) d }
    ensures left { Left t.new (with_capacity (view t.old) d) }
{
    if has_room(t, d) {
        return true;
    }
    let list = slot_sweep::free_invalid_capas(t, stored_slots::load_list(t, d));
    stored_slots::store_list(t, d, list);
    has_room(t, d)
}

// The capability into the first free slot. Nothing is swept here: `has_capacity_for` comes before.
pub fn insert_capa(t: &mut [u64], d: usize, capa: Slot) -> Option<usize>
    requires { Sized t.old }
    ensures value { result ≡ (give_slot (list_at (view t.old) d)).at }
    ensures left { Left t.new (with_capa (view t.old) d capa) }
{
    let g = slot_list::give(stored_slots::load_list(t, d));
    let at = g.at;
    let given = g.list;
    if let Some(i) = at {
        stored_slots::store_list(t, d, slot_list::put(given, i, capa));
    }
    at
}

// Frees slot i (document 01, **Send**).
pub fn remove_capa(t: &mut [u64], d: usize, i: usize)
    requires { Sized t.old }
    ensures { Left t.new (without_capa (view t.old) d i) }
{
    let list = slot_list::take(stored_slots::load_list(t, d), i);
    stored_slots::store_list(t, d, list);
}

// Slot i becomes None, still in use until a sweep (document 01, **Revoke**).
pub fn empty_capa(t: &mut [u64], d: usize, i: usize)
    requires { Sized t.old }
    ensures { Left t.new (with_empty (view t.old) d i) }
{
    let list = slot_list::empty(stored_slots::load_list(t, d), i);
    stored_slots::store_list(t, d, list);
}

// What slot i holds; a number too large answers a free slot.
pub fn capa_at(t: &[u64], d: usize, i: usize) -> Slot
    requires { Sized t.now }
    ensures { result ≡ capa_at (view t.now) d i }
{
    if d < words::size(t, sizes::DOMAINS) && i < words::size(t, sizes::SLOTS) {
        rows::load_slot(t, d, i)
    } else {
        slot_list::free_slot(0)
    }
}
