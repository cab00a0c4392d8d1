// The words of this delivery's tables built from former ones, without marks (document 02, request 2), for the converter.

#![tactic(auto)]

ghost use Rattle.std.specs.Prelude.{◌≡◌, true};
ghost use Rattle.tables.specs.View.{view, Sized, Left};
ghost use Rattle.converted.specs.Former.{rebuilt};
ghost use Rattle.converted_words.specs.Built.{marks_beside, marked_all, fits_b};

use tables::Update;

// Reach and the four rights.
const ALL_MARKS: u64 = 31;

// The marks beside an update: all five where a domain is queued, since former tables kept none (document 02, request 4).
#[tactic(auto, unfolding(crate::specs::Built::marks_beside))]
fn marks_beside(u: Update) -> u64
    ensures { result ≡ marks_beside u }
{
    if u.kind == Update::PERMISSION {
        ALL_MARKS
    } else {
        0
    }
}

// Gives every place of the ring its marks.
fn mark_all(v: &mut [u64])
    requires { Sized v.old }
    ensures { Left v.new (marked_all (view v.old)) }
{
    let n = words::size(v, sizes::UPDATES) + 1;
    for i in 0..n {
        let u = rows::load::<Update>(v, i);
        rows::store_mark(v, i, marks_beside(u));
    }
}

// Builds the new tables in v. Whether the old ones are as many words as their sizes ask, and v as many as the new ones.
pub fn build(old: &[u64], v: &mut [u64]) -> bool
    ensures value { result ≡ fits_b old.now v.old }
    ensures v_after { result ≡ true → v.new ≡ rebuilt old.now }
{
    words::store(v, 0, old);
    if !sizes::is_sized(v) {
        return false;
    }
    let z = sizes::read_sizes(v);
    if old.len() != sizes::marks_at(z) {
        return false;
    }
    mark_all(v);
    true
}
