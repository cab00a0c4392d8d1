// The test of lent tables, its part about capabilities (document 01, **Sound**).
// A walk over all slots lets each claim what it names: a mark in the work area for each thing that may be named once.

#![tactic(auto)]

ghost use Rattle.std.specs.Prelude.{◌≡◌, ◌+◌, ◌*◌, length, replicate};
ghost use Rattle.tables.specs.View.{view, Sized};
ghost use Rattle.claims.specs.Claims.{claims_hold};
ghost use Rattle.sound_capas.specs.Capas.{capa_claim, capas_hold};

use pools::Pool;
use tables::RegionCapa;

pub mod walk;

// Whether nothing is wrong, nothing is claimed twice, and as many are claimed as are wanted. The marks are cleared again.
fn claims_hold(t: &[u64], m: &mut [u64], want: usize) -> bool
    requires sized { Sized t.now }
    requires m_value { m.old ≡ replicate (length m.old) 0 }
    ensures value { result ≡ claims_hold (capa_claim (view t.now)) (length m.old) ((view t.now).sizes.domains * ((view t.now).sizes.slots + 1)) want }
    ensures m_unchanged { m.new ≡ m.old }
{
    let z = sizes::read_sizes(t);
    let rl = sections::links_of(t, Pool::Regions);
    let rg = sections::generations_of(t, Pool::Regions);
    let r = sections::rows_of::<RegionCapa>(t);
    let dl = sections::links_of(t, Pool::Domains);
    let dg = sections::generations_of(t, Pool::Domains);
    let p = managers::domains_of(t);
    let seen = walk::walk(m, want, t, z, rl, rg, r, dl, dg, p);
    m.fill(0);
    seen.fits && seen.left == 0
}

pub fn capas_hold(t: &[u64], w: &mut [u64]) -> bool
    requires sized { Sized t.now }
    requires w_len { length w.old ≡ length t.now }
    requires w_value { w.old ≡ replicate (length w.old) 0 }
    ensures value { result ≡ capas_hold (view t.now) }
    ensures w_unchanged { w.new ≡ w.old }
{
    let z = sizes::read_sizes(t);
    let m = z.regions + z.domains;
    let want = m
        .saturating_sub(pools::capacity(t, Pool::Regions))
        .saturating_sub(pools::capacity(t, Pool::Domains));
    claims_hold(t, &mut w[..m], want)
}
