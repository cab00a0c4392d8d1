// Making empty tables (document 01, "The call, from the entry down": make empty tables of given sizes).

#![tactic(auto)]

ghost use Rattle.std.specs.Prelude.{◌≡◌, length};
ghost use Rattle.sizes.specs.Limits.{Limits};
ghost use Rattle.sizes.specs.Sizes.{total};
ghost use Rattle.tables.specs.View.{layout};
ghost use Rattle.making.specs.Empty.{empty, Blank};

use pools::Pool;
use sizes::Sizes;

// The sizes alone: every other word is 0.
fn blank(t: &mut [u64], z: Sizes)
    requires limits { Limits z }
    requires t_len { length t.old ≡ total z }
    ensures { Blank z t.new }
{
    words::clear(t);
    let domains = z.domains as u64;
    let slots = z.slots as u64;
    let regions = z.regions as u64;
    let records = z.records as u64;
    let updates = z.updates as u64;
    words::store(
        t,
        sizes::DOMAINS,
        &[domains, slots, regions, records, updates],
    );
}

// The words become those of empty tables, whatever they held before.
pub fn make_empty(t: &mut [u64], z: Sizes)
    requires limits { Limits z }
    requires t_len { length t.old ≡ total z }
    ensures { t.new ≡ layout (empty z) }
{
    blank(t, z);
    pools::fresh(t, Pool::Domains);
    pools::fresh(t, Pool::Regions);
    pools::fresh(t, Pool::Records);
}
