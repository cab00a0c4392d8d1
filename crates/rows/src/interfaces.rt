// The interfaces of domains.
ghost use Rattle.std.specs.Prelude.{refl};
ghost use Rattle.std.proofs.Common.{rules};
ghost use Rattle.sizes.specs.Sizes.{interface_width, interface_section};
ghost use Rattle.tables.specs.Tables.{interface_at, with_interface};
ghost use Rattle.tables.specs.View.{interface_of, interface_words};
ghost use Rattle.tables.specs.Accessors.{interface-loaded, interface-stored};

use crate::{Record, Row};
use sizes::{INTERFACE_WIDTH, Sizes};
use tables::Interface;

impl Record for Interface {
    ghost WIDTH = { interface_width };

    ghost of = { interface_of };

    ghost words = { interface_words };

    ghost none = { Prim.search rules };

    const WIDTH: usize = INTERFACE_WIDTH;

    fn of_words(p: &[u64]) -> Interface {
        Interface {
            word: p[0],
            frozen: p[1],
        }
    }

    fn put(self, t: &mut [u64], a: usize) {
        words::store(t, a, &[self.word, self.frozen]);
    }
}

impl Row for Interface {
    ghost section = { interface_section };

    ghost count = { λ z. z.domains };

    ghost stride = { λ z. interface_width };

    ghost row_at = { interface_at };

    ghost with_row = { with_interface };

    ghost filled = { λ z. refl };

    ghost loaded = { λ t i s. interface-loaded t s i };

    ghost replaced = { λ t i r s. interface-stored t s i r };

    fn start(z: Sizes) -> usize {
        sizes::interfaces_at(z)
    }

    fn count(z: Sizes) -> usize {
        z.domains
    }

    fn stride(_z: Sizes) -> usize {
        INTERFACE_WIDTH
    }
}
