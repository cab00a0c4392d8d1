// The records of the tables, loaded and stored by their numbers. One that is not there is all zero, and is not stored.

#![tactic(auto)]

ghost use Rattle.std.specs.Prelude.{◌≡◌, length, ℕ, ◌*◌, List, [], get_or};
ghost use Rattle.words.specs.Runs.{fetched, stored};
ghost use Rattle.words.specs.Cuts.{offset};
ghost use Rattle.sizes.specs.declared.Sizes.{Sizes};
ghost use Rattle.sizes.specs.Limits.{Limits};
ghost use Rattle.sizes.specs.Sizes.{sizes_of, widths};
ghost use Rattle.tables.specs.Tables.{Tables};
ghost use Rattle.tables.specs.View.{view, Sized, Left};
ghost use Rattle.tables.specs.Rows.{placed};

use sizes::Sizes;

mod domains;
mod hashes;
mod interfaces;
mod records;
mod regions;
mod ring;

pub use domains::{clear_domain, load_slot};
pub use ring::{load_mark, read_place, set_places, store_mark, write_place};

// A record that stands in words of its own.
pub trait Record: Copy + Default {
    ghost WIDTH: { ℕ };

    ghost of: { List ℕ → Self };

    ghost words: { Self → List ℕ };

    const WIDTH: usize;

    fn of_words(p: &[u64]) -> Self
        requires { length p.now ≡ WIDTH }
        ensures { result ≡ of p.now };

    // Writes its words from a on; nothing where they do not all fit.
    fn put(self, t: &mut [u64], a: usize)
        ensures { t.new ≡ stored t.old a (words self) };

    // The record that is all zero is that of no words.
    ghost none: { (r : Self) → Self.is_default r → r ≡ of [] };
}

// A record that a section of the tables has rows of, one for each number.
pub trait Row: Record {
    ghost section: { ℕ };

    ghost count: { Sizes → ℕ };

    ghost stride: { Sizes → ℕ };

    ghost row_at: { Tables → ℕ → Self };

    ghost with_row: { Tables → ℕ → Self → Tables };

    // Where the section starts.
    fn start(z: Sizes) -> usize
        requires { Limits z }
        ensures { result ≡ offset (widths z) section };

    // How many rows it has.
    fn count(z: Sizes) -> usize
        requires { Limits z }
        ensures { result ≡ count z };

    // How many words one row has: the record's, and what stands behind them.
    fn stride(z: Sizes) -> usize
        requires { Limits z }
        ensures { result ≡ stride z };

    // The rows fill the section.
    ghost filled: { (z : Sizes) → get_or (widths z) section 0 ≡ count z * stride z };

    // The words at row i's place are those of row i, and words stored there replace it alone.
    ghost loaded: { (t : List ℕ) (i : ℕ) → Sized t → Self.of (fetched t (placed t section (count (sizes_of t)) (stride (sizes_of t)) i) Self.WIDTH) ≡ row_at (view t) i };

    ghost replaced: { (t : List ℕ) (i : ℕ) (r : Self) → Sized t → Left (stored t (placed t section (count (sizes_of t)) (stride (sizes_of t)) i) (Self.words r)) (with_row (view t) i r) };
}

// The record in the words from a on; the one that is all zero where they do not all lie in the slice.
pub fn read<R: Record>(p: &[u64], a: usize) -> R
    ensures { result ≡ R.of (fetched p.now a R.WIDTH) }
{
    let q = words::run(p, a, R::WIDTH);
    if q.len() == R::WIDTH {
        R::of_words(q)
    } else {
        R::default()
    }
}

fn place<R: Row>(t: &[u64], i: usize) -> usize
    requires { Sized t.now }
    ensures { result ≡ placed t.now R.section (R.count (sizes_of t.now)) (R.stride (sizes_of t.now)) i }
{
    let z = sizes::read_sizes(t);
    tables::rows::row_at(t, R::start(z), R::count(z), R::stride(z), i)
}

pub fn load<R: Row>(t: &[u64], i: usize) -> R
    requires { Sized t.now }
    ensures { result ≡ R.row_at (view t.now) i }
{
    read(t, place::<R>(t, i))
}

pub fn store<R: Row>(t: &mut [u64], i: usize, r: R)
    requires { Sized t.old }
    ensures { Left t.new (R.with_row (view t.old) i r) }
{
    let a = place::<R>(t, i);
    r.put(t, a);
}
