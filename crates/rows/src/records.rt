// Tracker records.
ghost use Rattle.std.specs.Prelude.{refl};
ghost use Rattle.std.proofs.Common.{rules};
ghost use Rattle.sizes.specs.Sizes.{record_width, records_section};
ghost use Rattle.tables.specs.Tables.{record_at, with_record};
ghost use Rattle.tables.specs.View.{record_of, record_words};
ghost use Rattle.tables.specs.Accessors.{record-loaded, record-stored};

use crate::{Record, Row};
use sizes::{RECORD_WIDTH, Sizes};
use tables::Region;

impl Record for Region {
    ghost WIDTH = { record_width };

    ghost of = { record_of };

    ghost words = { record_words };

    ghost none = { Prim.search rules };

    const WIDTH: usize = RECORD_WIDTH;

    fn of_words(p: &[u64]) -> Region {
        Region {
            start: p[0],
            end: p[1],
            ref_count: p[2],
            read_count: p[3],
            write_count: p[4],
            exec_count: p[5],
            super_count: p[6],
            uncache_count: p[7],
            next: p[8],
        }
    }

    fn put(self, t: &mut [u64], a: usize) {
        words::store(
            t,
            a,
            &[
                self.start,
                self.end,
                self.ref_count,
                self.read_count,
                self.write_count,
                self.exec_count,
                self.super_count,
                self.uncache_count,
                self.next,
            ],
        );
    }
}

impl Row for Region {
    ghost section = { records_section };

    ghost count = { λ z. z.records };

    ghost stride = { λ z. record_width };

    ghost row_at = { record_at };

    ghost with_row = { with_record };

    ghost filled = { λ z. refl };

    ghost loaded = { λ t i s. record-loaded t s i };

    ghost replaced = { λ t i r s. record-stored t s i r };

    fn start(z: Sizes) -> usize {
        sizes::records_at(z)
    }

    fn count(z: Sizes) -> usize {
        z.records
    }

    fn stride(_z: Sizes) -> usize {
        RECORD_WIDTH
    }
}
