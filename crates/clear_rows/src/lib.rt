// Rows of the tables by value: whether all words of one are 0, and whether a slot of a list in use is as its kind says.

#![tactic(auto)]

ghost use Rattle.std.specs.Prelude.{◌≡◌};
ghost use Rattle.clear_rows.specs.Clear.{head_clear, slot_clear, slot_well_formed, slot_fits, region_clear, record_clear};

use tables::{DomainHead, Handle, Region, RegionCapa, Slot};

pub fn head_clear(h: DomainHead) -> bool
    ensures { result ≡ head_clear h }
{
    h == DomainHead::default()
}

fn slot_clear(x: Slot) -> bool
    ensures { result ≡ slot_clear x }
{
    x == Slot::default()
}

fn slot_well_formed(x: Slot) -> bool
    ensures { result ≡ slot_well_formed x }
{
    match x.kind {
        Slot::NONE => x.handle == Handle::default(),
        Slot::FREE => x.handle.generation == 0,
        kind => kind <= Slot::CHANNEL,
    }
}

pub fn slot_fits(free: bool, x: Slot) -> bool
    ensures { result ≡ slot_fits free x }
{
    if free {
        slot_clear(x)
    } else {
        slot_well_formed(x)
    }
}

pub fn region_clear(r: RegionCapa) -> bool
    ensures { result ≡ region_clear r }
{
    r == RegionCapa::default()
}

pub fn record_clear(r: Region) -> bool
    ensures { result ≡ record_clear r }
{
    r == Region::default()
}
