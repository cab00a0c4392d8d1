// The test of the trackers (document 01, **Sound**, from "each tracker record is on one list" on): the records of each domain in use are swept
// against the pieces of its regions. Pools, slot lists, the region tree and the owners are tested elsewhere.

#![tactic(auto)]

ghost use Rattle.std.specs.Prelude.{◌≡◌, length, take, replicate};
ghost use Rattle.tables.specs.View.{view, Sized};
ghost use Rattle.sections.specs.Rows.{slot_in, region_in, record_in};
ghost use Rattle.sound_pieces.specs.Pieces.{slots_pieces};
ghost use Rattle.sound_pieces.specs.Laid.{space};
ghost use Rattle.sound_pieces.specs.Walks.{pool};
ghost use Rattle.sound_sweep.specs.Records.{chained};
ghost use Rattle.sound_trackers.specs.Trackers.{trackers_hold};
ghost use Rattle.sound_trackers.specs.Swept.{swept};

use pools::Pool;
use sizes::Sizes;
use tables::{DomainHead, Region, RegionCapa};

// The domain whose slots are s and whose tracker starts at link `first`. `w` is a work area, all zero.
fn domain_holds(
    z: Sizes,
    s: &[u64],
    links: &[u64],
    gens: &[u64],
    r: &[u64],
    q: &[u64],
    first: u64,
    w: &mut [u64],
) -> bool
    requires { w.old ≡ replicate (length w.old) 0 }
    ensures value { result ≡ swept (chained (record_in q.now) z.records first) (take (space w.old) (slots_pieces (pool links.now gens.now) (region_in r.now) z.regions (slot_in s.now) z.slots 0)) }
    ensures w_unchanged { w.new ≡ w.old }
{
    let count = sound_pieces::gather(s, z.slots, links, gens, r, z.regions, w);
    let k = 2 * count;
    let h = 2 * (w.len() / 4);
    let e = h + k;
    sound_events::sort(&mut w[0..k]);
    sound_events::sort(&mut w[h..e]);
    let holds = sound_sweep::sweep(q, z.records, first, &w[0..k], &w[h..e]);
    w[0..k].fill(0);
    w[h..e].fill(0);
    holds
}

// Whether the tracker of each domain in use is as **Sound** says. `w` is a work area as long as the tables, all zero.
pub fn trackers_hold(t: &[u64], w: &mut [u64]) -> bool
    requires sized { Sized t.now }
    requires w_len { length w.old ≡ length t.now }
    requires w_value { w.old ≡ replicate (length w.old) 0 }
    ensures value { result ≡ trackers_hold (view t.now) }
    ensures w_unchanged { w.new ≡ w.old }
{
    let z = sizes::read_sizes(t);
    let used = sections::links_of(t, Pool::Domains);
    let links = sections::links_of(t, Pool::Regions);
    let gens = sections::generations_of(t, Pool::Regions);
    let r = sections::rows_of::<RegionCapa>(t);
    let q = sections::rows_of::<Region>(t);
    for d in 0..z.domains {
        if words::word(used, d) == 0 {
            let s = sections::slots_of(t, d);
            let x = rows::load::<DomainHead>(t, d);
            if !domain_holds(z, s, links, gens, r, q, x.tracker, w) {
                return false;
            }
        }
    }
    true
}
