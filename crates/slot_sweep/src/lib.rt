// **Sweep** (domain.rs; document 01) of a domain's slot list: slots that hold None or a dead handle are freed in rising order.

#![tactic(auto)]

ghost use Rattle.std.specs.Prelude.{◌≡◌};
ghost use Rattle.tables.specs.View.{view, Sized};
ghost use Rattle.slot_sweep.specs.Sweep.{is_invalid_b, swept};

use pools::Pool;
use sizes::MOST_SLOTS;
use slot_list::SlotList;
use tables::Slot;

// None, or a dead handle. A kind that is no capability's, a free slot's too, is not invalid.
pub fn is_invalid(t: &[u64], x: Slot) -> bool
    requires { Sized t.now }
    ensures { result ≡ is_invalid_b (view t.now) x }
{
    match x.kind {
        Slot::NONE => true,
        Slot::REGION | Slot::REGION_REVOKE => !pools::is_live(t, Pool::Regions, x.handle),
        Slot::MANAGEMENT | Slot::CHANNEL => !pools::is_live(t, Pool::Domains, x.handle),
        _ => false,
    }
}

pub fn free_invalid_capas(t: &[u64], mut list: SlotList) -> SlotList
    requires { Sized t.now }
    ensures { result ≡ swept (view t.now) list }
{
    for i in 0..list.size.min(MOST_SLOTS) {
        if is_invalid(t, list.slots[i]) {
            list.slots[i] = slot_list::free_slot(list.head);
            list.head = i as u64;
            list.count = slot_list::less_one(list.count);
        }
    }
    list
}
