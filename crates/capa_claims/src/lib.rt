// What a slot and the head of a domain claim, by what is lent of the tables: the links `rl` and generations `rg` of regions, their rows `r`; those of
// domains `dl`, `dg`, and the section of domains `p`.

#![tactic(auto)]

ghost use Rattle.std.specs.Prelude.{◌≡◌, ◌+◌, ◌≤◌};
ghost use Rattle.sizes.specs.Limits.{Limits};
ghost use Rattle.arena.specs.Arena.{live_b};
ghost use Rattle.sections.specs.Rows.{region_in};
ghost use Rattle.managers.specs.Managers.{manager_in};
ghost use Rattle.capa_claims.specs.CapaClaims.{number, wrong, names_b, claim_by, region_claim, revoke_claim, management_claim, slot_claim, head_claim};
ghost use Rattle.capa_claims.specs.Lent.{pooled, lent};

use sizes::Sizes;
use tables::{Handle, RegionCapa, Slot};

// The number of slot i of n slots behind `base`.
fn number_of(wrong: usize, base: usize, n: usize, i: u64) -> usize
    requires { base + n ≤ 65536 }
    ensures { result ≡ number wrong base n i }
{
    let k = i as usize;
    if k < n { base + k + 1 } else { wrong }
}

// Whether the link names slot d.
fn names(l: u64, d: usize) -> bool
    ensures { result ≡ names_b l d }
{
    0 < l && l - 1 == d as u64
}

fn wrong_of(z: Sizes) -> usize
    requires { Limits z }
    ensures { result ≡ wrong z }
{
    z.regions + z.domains + 1
}

// Whether the handle's slot is in use and has its generation.
#[tactic(auto, unfolding(arena::specs::Arena::live_b))]
fn is_live(l: &[u64], g: &[u64], h: Handle) -> bool
    ensures { result ≡ live_b (pooled l.now g.now) h }
{
    let i = h.slot as usize;
    i < l.len() && words::word(l, i) == 0 && words::word(g, i) == h.generation
}

// What a handle claims, `live` where it is live.
#[tactic(auto, unfolding(crate::specs::CapaClaims::claim_by))]
fn claim_by(l: &[u64], g: &[u64], wrong: usize, h: Handle, live: usize) -> usize
    ensures { result ≡ claim_by wrong (pooled l.now g.now) h live }
{
    if is_live(l, g, h) {
        live
    } else if h.generation < words::word(g, h.slot as usize) {
        0
    } else {
        wrong
    }
}

#[tactic(auto, unfolding(crate::specs::CapaClaims::region_claim))]
fn region_claim(z: Sizes, rl: &[u64], rg: &[u64], r: &[u64], d: usize, h: Handle) -> usize
    requires { Limits z }
    ensures { result ≡ region_claim z (pooled rl.now rg.now) (region_in r.now) d h }
{
    let bad = wrong_of(z);
    let row = sections::row_in::<RegionCapa>(r, h.slot as usize);
    let own = if names(row.owner, d) {
        number_of(bad, 0, z.regions, h.slot)
    } else {
        bad
    };
    claim_by(rl, rg, bad, h, own)
}

#[tactic(auto, unfolding(crate::specs::CapaClaims::revoke_claim))]
fn revoke_claim(z: Sizes, rl: &[u64], rg: &[u64], r: &[u64], h: Handle) -> usize
    requires { Limits z }
    ensures { result ≡ revoke_claim z (pooled rl.now rg.now) (region_in r.now) h }
{
    let bad = wrong_of(z);
    let row = sections::row_in::<RegionCapa>(r, h.slot as usize);
    let own = if row.kind == RegionCapa::ROOT { bad } else { 0 };
    claim_by(rl, rg, bad, h, own)
}

#[tactic(auto, unfolding(crate::specs::CapaClaims::management_claim))]
fn management_claim(z: Sizes, dl: &[u64], dg: &[u64], p: &[u64], d: usize, h: Handle) -> usize
    requires { Limits z }
    ensures { result ≡ management_claim z (pooled dl.now dg.now) (manager_in z p.now) d h }
{
    let bad = wrong_of(z);
    let manager = managers::manager_in(z, p, h.slot as usize);
    let own = if names(manager, d) {
        number_of(bad, z.regions, z.domains, h.slot)
    } else {
        bad
    };
    claim_by(dl, dg, bad, h, own)
}

#[tactic(auto, unfolding(crate::specs::CapaClaims::slot_claim))]
pub fn slot_claim(
    z: Sizes,
    rl: &[u64],
    rg: &[u64],
    r: &[u64],
    dl: &[u64],
    dg: &[u64],
    p: &[u64],
    d: usize,
    x: Slot,
) -> usize
    requires { Limits z }
    ensures { result ≡ slot_claim (lent z rl.now rg.now r.now dl.now dg.now p.now) d x }
{
    let h = x.handle;
    match x.kind {
        Slot::REGION => region_claim(z, rl, rg, r, d, h),
        Slot::REGION_REVOKE => revoke_claim(z, rl, rg, r, h),
        Slot::MANAGEMENT => management_claim(z, dl, dg, p, d, h),
        Slot::CHANNEL => claim_by(dl, dg, wrong_of(z), h, 0),
        _ => 0,
    }
}

#[tactic(auto, unfolding(crate::specs::CapaClaims::head_claim))]
pub fn head_claim(z: Sizes, p: &[u64], d: usize) -> usize
    requires { Limits z }
    ensures { result ≡ head_claim z (manager_in z p.now) d }
{
    let bad = wrong_of(z);
    let manager = managers::manager_in(z, p, d);
    if managers::climb(z, p, z.domains, manager) != 0 {
        bad
    } else if manager == 0 {
        number_of(bad, z.regions, z.domains, d as u64)
    } else {
        0
    }
}
