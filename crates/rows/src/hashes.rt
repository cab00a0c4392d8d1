// The hashes of regions.
ghost use Rattle.std.specs.Prelude.{refl};
ghost use Rattle.std.proofs.Common.{rules};
ghost use Rattle.sizes.specs.Sizes.{hash_width, hash_section};
ghost use Rattle.tables.specs.Tables.{hash_at, with_hash};
ghost use Rattle.tables.specs.View.{hash_of, hash_words};
ghost use Rattle.tables.specs.Accessors.{hash-loaded, hash-stored};

use crate::{Record, Row};
use sizes::{HASH_WIDTH, Sizes};
use tables::RegionHash;

impl Record for RegionHash {
    ghost WIDTH = { hash_width };

    ghost of = { hash_of };

    ghost words = { hash_words };

    ghost none = { Prim.search rules };

    const WIDTH: usize = HASH_WIDTH;

    fn of_words(p: &[u64]) -> RegionHash {
        RegionHash {
            given: p[0],
            word0: p[1],
            word1: p[2],
            word2: p[3],
            word3: p[4],
        }
    }

    fn put(self, t: &mut [u64], a: usize) {
        words::store(
            t,
            a,
            &[self.given, self.word0, self.word1, self.word2, self.word3],
        );
    }
}

impl Row for RegionHash {
    ghost section = { hash_section };

    ghost count = { λ z. z.regions };

    ghost stride = { λ z. hash_width };

    ghost row_at = { hash_at };

    ghost with_row = { with_hash };

    ghost filled = { λ z. refl };

    ghost loaded = { λ t i s. hash-loaded t s i };

    ghost replaced = { λ t i r s. hash-stored t s i r };

    fn start(z: Sizes) -> usize {
        sizes::hashes_at(z)
    }

    fn count(z: Sizes) -> usize {
        z.regions
    }

    fn stride(_z: Sizes) -> usize {
        HASH_WIDTH
    }
}
