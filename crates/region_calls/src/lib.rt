// Roots and aliases.

#![tactic(auto)]

ghost use Rattle.std.specs.Prelude.{◌≡◌};
ghost use Rattle.tables.specs.View.{view, Sized, Left};
ghost use Rattle.region_calls.specs.Calls.{held_region, create_root_region, add_child, alias_region};
ghost use Rattle.region_calls.specs.Parts.{rooted, aliased};

use answers::Answer;
use pools::Pool;
use refusals::Refusal;
use region::AccessRights;
use tables::{Handle, Interface, RegionCapa, Slot};

// Region i into domain d's list.
fn hold(t: &mut [u64], d: usize, i: u64) -> Answer
    requires { Sized t.old }
    ensures value { result ≡ (held_region d i (view t.old)).answer }
    ensures left { Left t.new (held_region d i (view t.old)).tables }
{
    let handle = Handle {
        slot: i,
        generation: pools::generation(t, Pool::Regions, i as usize),
    };
    let capa = Slot {
        kind: Slot::REGION,
        handle,
    };
    domain::insert(t, d, capa)
}

fn root(t: &mut [u64], d: usize, a: AccessRights) -> Answer
    requires { Sized t.old }
    ensures value { result ≡ (rooted d a (view t.old)).answer }
    ensures left { Left t.new (rooted d a (view t.old)).tables }
{
    let i = segment::new_region(t, segment::capa_for(d, RegionCapa::ROOT, 0, a))?;
    let l = hold(t, d, i)?;
    domain::activate_region(t, d, a, 0)?;
    Ok(l)
}

pub fn create_root_region(t: &mut [u64], h: Handle, a: AccessRights) -> Answer
    requires { Sized t.old }
    ensures value { result ≡ (create_root_region h a (view t.old)).answer }
    ensures left { Left t.new (create_root_region h a (view t.old)).tables }
{
    let d = checks::live_domain(t, h)?;
    checks::room_for_region(t, d as usize, a)?;
    root(t, d as usize, a)
}

// A child of region p, of that kind, in domain d's list.
pub fn add_child(t: &mut [u64], d: usize, p: usize, kind: u64, a: AccessRights) -> Answer
    requires { Sized t.old }
    ensures value { result ≡ (add_child d p kind a (view t.old)).answer }
    ensures left { Left t.new (add_child d p kind a (view t.old)).tables }
{
    let i = segment::new_region(t, segment::capa_for(d, kind, tables::link_to(p as u64), a))?;
    children::insert_child(t, p, i as usize);
    hold(t, d, i)
}

// 8, and the alias of region p: domain d gains its range.
fn alias(t: &mut [u64], d: usize, p: usize, a: AccessRights) -> Answer
    requires { Sized t.old }
    ensures value { result ≡ (aliased d p a (view t.old)).answer }
    ensures left { Left t.new (aliased d p a (view t.old)).tables }
{
    if !children::check_alias(t, p, a) {
        return Err(Refusal::Beyond);
    }
    let n = add_child(t, d, p, RegionCapa::ALIAS, a)?;
    domain::activate_region(t, d, a, 0)?;
    Ok(n)
}

pub fn alias_region(t: &mut [u64], h: Handle, l: usize, a: AccessRights) -> Answer
    requires { Sized t.old }
    ensures value { result ≡ (alias_region h l a (view t.old)).answer }
    ensures left { Left t.new (alias_region h l a (view t.old)).tables }
{
    let d = checks::caller_with(t, h, Interface::ALIAS)?;
    let p = checks::region_held(t, d as usize, l)?;
    checks::room_for_region(t, d as usize, a)?;
    alias(t, d as usize, p as usize, a)
}
