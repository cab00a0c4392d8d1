// Regions.
ghost use Rattle.std.specs.Prelude.{refl};
ghost use Rattle.std.proofs.Common.{rules};
ghost use Rattle.sizes.specs.Sizes.{region_width, regions_section};
ghost use Rattle.tables.specs.Tables.{region_at, with_region};
ghost use Rattle.tables.specs.View.{region_of, region_words};
ghost use Rattle.tables.specs.Accessors.{region-loaded, region-stored};

use crate::{Record, Row};
use sizes::{REGION_WIDTH, Sizes};
use tables::RegionCapa;

impl Record for RegionCapa {
    ghost WIDTH = { region_width };

    ghost of = { region_of };

    ghost words = { region_words };

    ghost none = { Prim.search rules };

    const WIDTH: usize = REGION_WIDTH;

    fn of_words(p: &[u64]) -> RegionCapa {
        RegionCapa {
            kind: p[0],
            owner: p[1],
            parent: p[2],
            start: p[3],
            end: p[4],
            rights: p[5],
            child: p[6],
            next: p[7],
        }
    }

    fn put(self, t: &mut [u64], a: usize) {
        words::store(
            t,
            a,
            &[
                self.kind,
                self.owner,
                self.parent,
                self.start,
                self.end,
                self.rights,
                self.child,
                self.next,
            ],
        );
    }
}

impl Row for RegionCapa {
    ghost section = { regions_section };

    ghost count = { λ z. z.regions };

    ghost stride = { λ z. region_width };

    ghost row_at = { region_at };

    ghost with_row = { with_region };

    ghost filled = { λ z. refl };

    ghost loaded = { λ t i s. region-loaded t s i };

    ghost replaced = { λ t i r s. region-stored t s i r };

    fn start(z: Sizes) -> usize {
        sizes::regions_at(z)
    }

    fn count(z: Sizes) -> usize {
        z.regions
    }

    fn stride(_z: Sizes) -> usize {
        REGION_WIDTH
    }
}
