// Capabilities revoked, and a capability to revoke.

#![tactic(auto)]

ghost use Rattle.std.specs.Prelude.{◌≡◌};
ghost use Rattle.tables.specs.View.{view, Sized, Left};
ghost use Rattle.revoke_calls.specs.Calls.{revoke_unless_root, revoke_capa, revoke_local, create_revoke_capa};
ghost use Rattle.revoke_calls.specs.Parts.{revoked_held, revoker};

use answers::Answer;
use pools::Pool;
use refusals::Refusal;
use tables::{Handle, RegionCapa, Slot};

// 9.
fn revoke_unless_root(t: &mut [u64], i: usize) -> Answer
    requires { Sized t.old }
    ensures value { result ≡ (revoke_unless_root i (view t.old)).answer }
    ensures left { Left t.new (revoke_unless_root i (view t.old)).tables }
{
    let g = rows::load::<RegionCapa>(t, i);
    if g.kind == RegionCapa::ROOT {
        return Err(Refusal::Root);
    }
    revocation::revoke(t, i, 0)
}

// 6, 9: what a Region capability names.
fn revoke_held(t: &mut [u64], h: Handle) -> Answer
    requires { Sized t.old }
    ensures value { result ≡ (revoked_held h (view t.old)).answer }
    ensures left { Left t.new (revoked_held h (view t.old)).tables }
{
    let i = checks::live_region(t, h)?;
    revoke_unless_root(t, i as usize)
}

// 4, 3, 22, 23, 6, 9; a RegionRevoke of a dead region succeeds.
fn revoke_capa(t: &mut [u64], x: Slot) -> Answer
    requires { Sized t.old }
    ensures value { result ≡ (revoke_capa x (view t.old)).answer }
    ensures left { Left t.new (revoke_capa x (view t.old)).tables }
{
    match x.kind {
        Slot::FREE => Err(Refusal::NoSlot),
        Slot::MANAGEMENT => close_calls::close_managed(t, x.handle),
        Slot::REGION => revoke_held(t, x.handle),
        Slot::REGION_REVOKE if pools::is_live(t, Pool::Regions, x.handle) => {
            revoke_unless_root(t, x.handle.slot as usize)
        }
        _ => Ok(0),
    }
}

// The capability's slot becomes None, and is in use until a sweep.
pub fn revoke(t: &mut [u64], h: Handle, l: usize) -> Answer
    requires { Sized t.old }
    ensures value { result ≡ (revoke_local h l (view t.old)).answer }
    ensures left { Left t.new (revoke_local h l (view t.old)).tables }
{
    let d = checks::live_domain(t, h)?;
    let x = slots::capa_at(t, d as usize, l);
    revoke_capa(t, x)?;
    slots::empty_capa(t, d as usize, l);
    Ok(0)
}

// 9, 12.
fn add_revoker(t: &mut [u64], d: usize, i: u64) -> Answer
    requires { Sized t.old }
    ensures value { result ≡ (revoker d i (view t.old)).answer }
    ensures left { Left t.new (revoker d i (view t.old)).tables }
{
    let g = rows::load::<RegionCapa>(t, i as usize);
    if g.kind == RegionCapa::ROOT {
        return Err(Refusal::Root);
    }
    domain::reserve(t, d)?;
    let handle = Handle {
        slot: i,
        generation: pools::generation(t, Pool::Regions, i as usize),
    };
    let capa = Slot {
        kind: Slot::REGION_REVOKE,
        handle,
    };
    domain::insert(t, d, capa)
}

pub fn create_revoke_capa(t: &mut [u64], h: Handle, l: usize) -> Answer
    requires { Sized t.old }
    ensures value { result ≡ (create_revoke_capa h l (view t.old)).answer }
    ensures left { Left t.new (create_revoke_capa h l (view t.old)).tables }
{
    let d = checks::live_domain(t, h)?;
    let i = checks::region_held(t, d as usize, l)?;
    add_revoker(t, d as usize, i)
}
