// **Send** (document 01): a region's effective ranges go from one domain to another.
ghost use Rattle.std.specs.Prelude.{◌≡◌};
ghost use Rattle.tables.specs.View.{view, Sized, Left};
ghost use Rattle.segment.specs.Regions.{send_from, send_region};

use crate::regions;
use answers::Answer;
use refusals::Refusal;
use tables::RegionCapa;

// The range from `start` up to `end` less the carved children from `first` on; at most `limit` children.
fn send_from(
    t: &mut [u64],
    old: usize,
    new: usize,
    rights: u64,
    end: u64,
    limit: usize,
    start: u64,
    first: u64,
) -> Answer
    requires { Sized t.old }
    ensures value { result ≡ (send_from old new rights end limit start first (view t.old)).answer }
    ensures left { Left t.new (send_from old new rights end limit start first (view t.old)).tables }
{
    let mut x = start;
    let mut k = first;
    for _ in 0..limit {
        if k == 0 {
            return regions::move_piece(t, old, new, rights, x, end);
        }
        let c = rows::load::<RegionCapa>(t, tables::slot_to(k));
        k = c.next;
        if c.kind != RegionCapa::CARVE {
            continue;
        }
        regions::move_piece(t, old, new, rights, x, c.start)?;
        x = c.end;
    }
    Err(Refusal::Memory)
}

// Region i becomes domain `new`'s. Its children stay where they are.
pub fn send_region(t: &mut [u64], i: usize, new: usize) -> Answer
    requires { Sized t.old }
    ensures value { result ≡ (send_region i new (view t.old)).answer }
    ensures left { Left t.new (send_region i new (view t.old)).tables }
{
    let limit = words::size(t, sizes::REGIONS) + 1;
    let g = rows::load::<RegionCapa>(t, i);
    let mut h = g;
    h.owner = tables::link_to(new as u64);
    rows::store(t, i, h);
    send_from(
        t,
        tables::slot_to(g.owner),
        new,
        g.rights,
        g.end,
        limit,
        g.start,
        g.child,
    )
}
