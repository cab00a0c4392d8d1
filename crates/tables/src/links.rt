// A slot number as it is stored, a link: 0 is no slot, k + 1 is slot k.
ghost use Rattle.std.specs.Prelude.{◌≡◌};
ghost use Rattle.tables.specs.Links.{link_to, slot_to};

// The link to a slot, and the slot of a link.
pub fn link_to(slot: u64) -> u64
    ensures { result ≡ link_to slot }
{
    slot.wrapping_add(1)
}

pub fn slot_to(link: u64) -> usize
    ensures { result ≡ slot_to link }
{
    link.saturating_sub(1) as usize
}
