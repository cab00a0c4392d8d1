// The update ring: its places, their marks, and the two that the header names.
ghost use Rattle.std.specs.Prelude.{◌≡◌, refl, ◌+◌};
ghost use Rattle.std.proofs.Common.{rules};
ghost use Rattle.sizes.specs.Sizes.{update_width, ring_section};
ghost use Rattle.tables.specs.Tables.{update_at, mark_at, with_update, with_mark, with_places};
ghost use Rattle.tables.specs.View.{view, Sized, Left, update_of, update_words};
ghost use Rattle.tables.specs.Accessors.{mark_place, update-loaded, update-stored};

use crate::{Record, Row};
use sizes::{MARK_WIDTH, Sizes, UPDATE_WIDTH};
use tables::Update;

impl Record for Update {
    ghost WIDTH = { update_width };

    ghost of = { update_of };

    ghost words = { update_words };

    ghost none = { Prim.search rules };

    const WIDTH: usize = UPDATE_WIDTH;

    fn of_words(p: &[u64]) -> Update {
        Update {
            kind: p[0],
            a: p[1],
            b: p[2],
            c: p[3],
        }
    }

    fn put(self, t: &mut [u64], a: usize) {
        words::store(t, a, &[self.kind, self.a, self.b, self.c]);
    }
}

impl Row for Update {
    ghost section = { ring_section };

    ghost count = { λ z. z.updates + 1 };

    ghost stride = { λ z. update_width };

    ghost row_at = { update_at };

    ghost with_row = { with_update };

    ghost filled = { λ z. refl };

    ghost loaded = { λ t i s. update-loaded t s i };

    ghost replaced = { λ t i r s. update-stored t s i r };

    fn start(z: Sizes) -> usize {
        sizes::ring_at(z)
    }

    fn count(z: Sizes) -> usize {
        z.updates + 1
    }

    fn stride(_z: Sizes) -> usize {
        UPDATE_WIDTH
    }
}

fn mark_at(t: &[u64], i: usize) -> usize
    requires { Sized t.now }
    ensures { result ≡ mark_place t.now i }
{
    let z = sizes::read_sizes(t);
    tables::rows::row_at(t, sizes::marks_at(z), z.updates + 1, MARK_WIDTH, i)
}

pub fn load_mark(t: &[u64], i: usize) -> u64
    requires { Sized t.now }
    ensures { result ≡ mark_at (view t.now) i }
{
    words::word(t, mark_at(t, i))
}

pub fn store_mark(t: &mut [u64], i: usize, m: u64)
    requires { Sized t.old }
    ensures { Left t.new (with_mark (view t.old) i m) }
{
    let a = mark_at(t, i);
    words::put(t, a, m);
}

pub fn read_place(t: &[u64]) -> u64
    ensures { result ≡ (view t.now).read }
{
    words::word(t, sizes::READ)
}

pub fn write_place(t: &[u64]) -> u64
    ensures { result ≡ (view t.now).write }
{
    words::word(t, sizes::WRITE)
}

pub fn set_places(t: &mut [u64], read: u64, write: u64)
    requires { Sized t.old }
    ensures { Left t.new (with_places (view t.old) read write) }
{
    words::store(t, sizes::READ, &[read, write]);
}
