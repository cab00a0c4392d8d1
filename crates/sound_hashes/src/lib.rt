// The test of the regions' hashes in lent tables (document 02, request 1). Any words may stand in the tables.

#![tactic(auto)]

ghost use Rattle.std.specs.Prelude.{◌≡◌};
ghost use Rattle.tables.specs.View.{view, Sized};
ghost use Rattle.sections.specs.Rows.{hash_in};
ghost use Rattle.sound_hashes.specs.Hashes.{hash_clear, hash_fits, row_holds, hashes_hold};

use pools::Pool;
use tables::RegionHash;

fn hash_clear(h: RegionHash) -> bool
    ensures { result ≡ hash_clear h }
{
    h == RegionHash::default()
}

#[tactic(auto, unfolding(crate::specs::Hashes::hash_fits))]
fn hash_fits(free: bool, h: RegionHash) -> bool
    ensures { result ≡ hash_fits free h }
{
    !free && h.given == 1 || hash_clear(h)
}

#[tactic(auto, unfolding(crate::specs::Hashes::row_holds))]
fn row_holds(links: &[u64], p: &[u64], i: usize) -> bool
    ensures { result ≡ row_holds links.now (hash_in p.now) i }
{
    let free = 0 < words::word(links, i);
    hash_fits(free, sections::row_in::<RegionHash>(p, i))
}

// Whether each region in use has a hash or none, and each free slot none.
pub fn hashes_hold(t: &[u64]) -> bool
    requires { Sized t.now }
    ensures { result ≡ hashes_hold (view t.now) }
{
    let n = words::size(t, sizes::REGIONS);
    let links = sections::links_of(t, Pool::Regions);
    let p = sections::rows_of::<RegionHash>(t);
    (0..n).all(|i| row_holds(links, p, i))
}
