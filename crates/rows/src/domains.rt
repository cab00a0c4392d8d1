// Domains: the words before the slots, a slot by itself, and all words of one cleared.
ghost use Rattle.std.specs.Prelude.{◌≡◌, refl};
ghost use Rattle.std.proofs.Common.{rules};
ghost use Rattle.sizes.specs.Sizes.{head_width, slot_width, domains_section, stride};
ghost use Rattle.tables.specs.Tables.{head_at, slot_at, with_head, without_domain};
ghost use Rattle.tables.specs.View.{view, Sized, Left, head_of, head_words, slot_of, slot_words};
ghost use Rattle.tables.specs.Domains.{slot_place, head-loaded, head-stored};

use crate::{Record, Row, place, read};
use sizes::{HEAD_WIDTH, SLOT_WIDTH, Sizes};
use tables::{DomainHead, Handle, Slot};

impl Record for DomainHead {
    ghost WIDTH = { head_width };

    ghost of = { head_of };

    ghost words = { head_words };

    ghost none = { Prim.search rules };

    const WIDTH: usize = HEAD_WIDTH;

    fn of_words(p: &[u64]) -> DomainHead {
        DomainHead {
            manager: p[0],
            cores: p[1],
            tracker: p[2],
            head: p[3],
            count: p[4],
        }
    }

    fn put(self, t: &mut [u64], a: usize) {
        words::store(
            t,
            a,
            &[
                self.manager,
                self.cores,
                self.tracker,
                self.head,
                self.count,
            ],
        );
    }
}

impl Row for DomainHead {
    ghost section = { domains_section };

    ghost count = { λ z. z.domains };

    ghost stride = { stride };

    ghost row_at = { head_at };

    ghost with_row = { with_head };

    ghost filled = { λ z. refl };

    ghost loaded = { λ t i s. head-loaded t s i };

    ghost replaced = { λ t i r s. head-stored t s i r };

    fn start(z: Sizes) -> usize {
        sizes::domains_at(z)
    }

    fn count(z: Sizes) -> usize {
        z.domains
    }

    fn stride(z: Sizes) -> usize {
        sizes::domain_width(z)
    }
}

// Makes the words of domain i 0, its slots' too; nothing where there is no such domain.
pub fn clear_domain(t: &mut [u64], i: usize)
    requires { Sized t.old }
    ensures { Left t.new (without_domain (view t.old) i) }
{
    let z = sizes::read_sizes(t);
    let w = sizes::domain_width(z);
    if i < z.domains {
        let start = place::<DomainHead>(t, i);
        words::clear(&mut t[start..start + w]);
    }
}

// ---- Slot j of domain i

impl Record for Slot {
    ghost WIDTH = { slot_width };

    ghost of = { slot_of };

    ghost words = { slot_words };

    ghost none = { Prim.search rules };

    const WIDTH: usize = SLOT_WIDTH;

    fn of_words(p: &[u64]) -> Slot {
        let handle = Handle {
            slot: p[1],
            generation: p[2],
        };
        Slot { kind: p[0], handle }
    }

    fn put(self, t: &mut [u64], a: usize) {
        words::store(t, a, &[self.kind, self.handle.slot, self.handle.generation]);
    }
}

fn slot_at(t: &[u64], i: usize, j: usize) -> usize
    requires { Sized t.now }
    ensures { result ≡ slot_place t.now i j }
{
    if j < words::size(t, sizes::SLOTS) {
        place::<DomainHead>(t, i) + (HEAD_WIDTH + j * SLOT_WIDTH)
    } else {
        t.len()
    }
}

pub fn load_slot(t: &[u64], i: usize, j: usize) -> Slot
    requires { Sized t.now }
    ensures { result ≡ slot_at (view t.now) i j }
{
    read(t, slot_at(t, i, j))
}
