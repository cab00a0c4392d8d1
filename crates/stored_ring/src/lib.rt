// The ring in the tables: loaded with its marks, and a place of it stored.

#![tactic(auto)]

ghost use Rattle.std.specs.Prelude.{◌≡◌, ◌*◌, ◌≤◌, length};
ghost use Rattle.sizes.specs.Sizes.{update_width, mark_width};
ghost use Rattle.tables.specs.Tables.{with_places, with_update, with_mark};
ghost use Rattle.tables.specs.View.{view, Sized, Left};
ghost use Rattle.ring.specs.Ring.{cap};
ghost use Rattle.stored_ring.specs.Stored.{ring_of, ring_in, place_in, RingAt};

use ring::{Entry, PLACES, Ring};
use rows::Record;
use sizes::{MARK_WIDTH, UPDATE_WIDTH};
use tables::Update;

// The words of the ring, from `start` up to `end`, and those of its marks.
#[derive(Clone, Copy)]
struct Span {
    start: usize,
    end: usize,
    marks: usize,
    marks_end: usize,
    places: usize,
}

fn span_of(t: &[u64]) -> Span
    requires { Sized t.now }
    ensures { RingAt t.now result }
{
    let z = sizes::read_sizes(t);
    let start = sizes::ring_at(z);
    let marks = sizes::marks_at(z);
    let places = z.updates + 1;
    Span {
        start,
        end: start + places * UPDATE_WIDTH,
        marks,
        marks_end: marks + places * MARK_WIDTH,
        places,
    }
}

// ---- In the words of the ring, p, and of its marks, m

fn ring_in(p: &[u64], m: &[u64], n: usize, read: usize, write: usize) -> Ring
    requires p_len { length p.now ≡ n * update_width }
    requires m_len { length m.now ≡ n * mark_width }
    requires n_le_cap { n ≤ cap }
    ensures { result ≡ ring_in n p.now m.now read write }
{
    let mut places = [Entry::default(); PLACES];
    for i in 0..n {
        let a = i * UPDATE_WIDTH;
        places[i] = Entry {
            update: Update::of_words(&p[a..a + UPDATE_WIDTH]),
            marks: m[i * MARK_WIDTH],
        };
    }
    Ring {
        places,
        read,
        write,
        size: n,
    }
}

// Place i; nothing past the largest ring.
fn place_in(ring: &Ring, i: usize) -> Entry
    ensures { result ≡ place_in ring.now i }
{
    ring.places.get(i).copied().unwrap_or_default()
}

// ---- In the tables

pub fn load_ring(t: &[u64]) -> Ring
    requires { Sized t.now }
    ensures { result ≡ ring_of (view t.now) }
{
    let s = span_of(t);
    let read = rows::read_place(t) as usize;
    let write = rows::write_place(t) as usize;
    ring_in(
        &t[s.start..s.end],
        &t[s.marks..s.marks_end],
        s.places,
        read,
        write,
    )
}

// Place i of the ring with its marks, and the two that the header names: a step changes no more than these.
pub fn store_place(t: &mut [u64], i: usize, ring: &Ring)
    requires { Sized t.old }
    ensures { Left t.new (with_places (with_mark (with_update (view t.old) i (place_in ring.now i).update) i (place_in ring.now i).marks) ring.now.read ring.now.write) }
{
    let e = place_in(ring, i);
    rows::store(t, i, e.update);
    rows::store_mark(t, i, e.marks);
    rows::set_places(t, ring.read as u64, ring.write as u64);
}
