// Sections of the tables lent as slices of their own: a place is worked out once, not at each access. A row is read from its section by its
// number; one that is not there is all zero.

#![tactic(auto)]

ghost use Rattle.std.specs.Prelude.{◌≡◌};
ghost use Rattle.sizes.specs.Sizes.{sizes_of};
ghost use Rattle.tables.specs.View.{view, Sized};
ghost use Rattle.pools.specs.Pools.{pool_of};
ghost use Rattle.sections.specs.Rows.{row_in};

use pools::Pool;
use rows::{Record, Row};
use sizes::POOL_HEAD;

pub mod slots;

pub use slots::slots_of;

// Row i of a section.
pub fn row_in<R: Record>(p: &[u64], i: usize) -> R
    ensures { result ≡ row_in R.of R.WIDTH p.now i }
{
    rows::read(p, i.saturating_mul(R::WIDTH))
}

// The section of rows that have no words but their record's.
pub fn rows_of<R: Row>(t: &[u64]) -> &[u64]
    requires sized { Sized t.now }
    requires records_alone { R.stride (sizes_of t.now) ≡ R.WIDTH }
    ensures { row_in R.of R.WIDTH result.now ≡ R.row_at (view t.now) }
{
    let z = sizes::read_sizes(t);
    words::run(t, R::start(z), R::count(z) * R::WIDTH)
}

// ---- A pool's links and generations, one for each slot

pub fn links_of(t: &[u64], q: Pool) -> &[u64]
    requires { Sized t.now }
    ensures { result.now ≡ (pool_of (view t.now) q).links }
{
    let s = pools::span_of(t, q);
    words::run(t, s.start + POOL_HEAD, s.slots)
}

pub fn generations_of(t: &[u64], q: Pool) -> &[u64]
    requires { Sized t.now }
    ensures { result.now ≡ (pool_of (view t.now) q).gens }
{
    let s = pools::span_of(t, q);
    words::run(t, s.start + POOL_HEAD + s.slots, s.slots)
}
