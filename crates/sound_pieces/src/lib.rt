// The pieces of a domain's regions, laid down in a work area: in its first half where they start, in its second where they end.

#![tactic(auto)]

ghost use Rattle.std.specs.Prelude.{◌≡◌};
ghost use Rattle.sections.specs.Rows.{slot_in, region_in};
ghost use Rattle.sound_pieces.specs.Pieces.{piece, region_pieces, names_b, slots_pieces};
ghost use Rattle.sound_pieces.specs.Laid.{filled, fitted, places};
ghost use Rattle.sound_pieces.specs.Walks.{pool};

use tables::{RegionCapa, Slot};

// The piece from s up to e with rights r, behind the n that lie in w already; how many lie there then.
fn lay(w: &mut [u64], n: usize, r: u64, s: u64, e: u64) -> usize
    ensures { filled w.new result ≡ places (filled w.old n) (piece r s e) }
{
    let room = w.len() / 4;
    if s < e && n < room {
        let a = 2 * n;
        let b = 2 * (room + n);
        w[a] = s;
        w[a + 1] = r;
        w[b] = e;
        w[b + 1] = r;
        return n + 1;
    }
    n
}

// The pieces of region i of the n in r, behind the `count` that lie in w.
fn lay_region(r: &[u64], n: usize, i: usize, w: &mut [u64], mut count: usize) -> usize
    ensures { filled w.new result ≡ places (filled w.old count) (region_pieces (region_in r.now) n i) }
{
    let g = sections::row_in::<RegionCapa>(r, i);
    let mut at = g.start;
    let mut link = g.child;
    for _ in 0..n {
        if link == 0 {
            break;
        }
        let c = sections::row_in::<RegionCapa>(r, (link - 1) as usize);
        if RegionCapa::CARVE <= c.kind {
            count = lay(w, count, g.rights, at, c.start);
            at = c.end;
        }
        link = c.next;
    }
    lay(w, count, g.rights, at, g.end)
}

// Whether the slot names a live region of the pool with these links and generations.
#[tactic(auto, unfolding(crate::specs::Pieces::names_b, arena::specs::Arena::live_b))]
fn names(x: Slot, links: &[u64], gens: &[u64]) -> bool
    ensures { result ≡ names_b (pool links.now gens.now) x }
{
    let i = x.handle.slot as usize;
    x.kind == Slot::REGION
        && i < links.len()
        && links[i] == 0
        && words::word(gens, i) == x.handle.generation
}

// The pieces of the regions that the slots name; how many they are.
pub fn gather(
    s: &[u64],
    slots: usize,
    links: &[u64],
    gens: &[u64],
    r: &[u64],
    n: usize,
    w: &mut [u64],
) -> usize
    ensures { filled w.new result ≡ fitted w.old (slots_pieces (pool links.now gens.now) (region_in r.now) n (slot_in s.now) slots 0) }
{
    let mut count = 0;
    for j in 0..slots {
        let x = sections::row_in::<Slot>(s, j);
        if names(x, links, gens) {
            count = lay_region(r, n, x.handle.slot as usize, w, count);
        }
    }
    count
}
