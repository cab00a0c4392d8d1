// Carves.

#![tactic(auto)]

ghost use Rattle.std.specs.Prelude.{◌≡◌};
ghost use Rattle.tables.specs.View.{view, Sized, Left};
ghost use Rattle.carve_calls.specs.Calls.{exchange_rights, carve_region};
ghost use Rattle.carve_calls.specs.Parts.{carved};

use answers::Answer;
use refusals::Refusal;
use region::AccessRights;
use tables::{Handle, Interface, RegionCapa};

// The range is lost with the parent's rights `old` and gained with its own, where these differ.
fn exchange_rights(t: &mut [u64], d: usize, old: u64, a: AccessRights) -> Answer
    requires { Sized t.old }
    ensures value { result ≡ (exchange_rights d old a (view t.old)).answer }
    ensures left { Left t.new (exchange_rights d old a (view t.old)).tables }
{
    let ops = a.ops;
    if old == ops.0 as u64 {
        return Ok(0);
    }
    domain::deactivate_region(t, d, segment::access(a.start, a.end, old), 0)?;
    domain::activate_region(t, d, a, 0)
}

// 8, and the carve of region p.
fn carve(t: &mut [u64], d: usize, p: usize, a: AccessRights) -> Answer
    requires { Sized t.old }
    ensures value { result ≡ (carved d p a (view t.old)).answer }
    ensures left { Left t.new (carved d p a (view t.old)).tables }
{
    if !children::check_carve(t, p, a) {
        return Err(Refusal::Beyond);
    }
    let parent = rows::load::<RegionCapa>(t, p);
    let n = region_calls::add_child(t, d, p, RegionCapa::CARVE, a)?;
    exchange_rights(t, d, parent.rights, a)?;
    Ok(n)
}

pub fn carve_region(t: &mut [u64], h: Handle, l: usize, a: AccessRights) -> Answer
    requires { Sized t.old }
    ensures value { result ≡ (carve_region h l a (view t.old)).answer }
    ensures left { Left t.new (carve_region h l a (view t.old)).tables }
{
    let d = checks::caller_with(t, h, Interface::CARVE)?;
    let p = checks::region_held(t, d as usize, l)?;
    checks::room_for_region(t, d as usize, a)?;
    carve(t, d as usize, p as usize, a)
}
