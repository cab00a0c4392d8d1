// Checks that several calls share, the refusal's number beside each.

#![tactic(auto)]

ghost use Rattle.std.specs.Prelude.{◌≡◌};
ghost use Rattle.tables.specs.View.{view, Sized, Left};
ghost use Rattle.rights.specs.Rights.{has};
ghost use Rattle.checks.specs.Checks.{live_domain, caller_with, live_region, as_region, as_target, region_held, target_held, room_for_region};

use answers::Answer;
use pools::Pool;
use refusals::Refusal;
use region::AccessRights;
use tables::{Handle, Interface, Slot};

// 3; the answer is the domain's slot.
pub fn live_domain(t: &[u64], h: Handle) -> Answer
    requires { Sized t.now }
    ensures { result ≡ (live_domain h (view t.now)).answer }
{
    if pools::is_live(t, Pool::Domains, h) {
        Ok(h.slot)
    } else {
        Err(Refusal::NoDomain)
    }
}

// Whether a flag is set in a word; 0 is no flag.
fn has(word: u64, flag: u64) -> bool
    ensures { result ≡ has word flag }
{
    if flag == 0 {
        return false;
    }
    word / flag % 2 == 1
}

// 3, 20 (document 02, request 2): a domain whose interface has that bit; the answer is its slot.
pub fn caller_with(t: &[u64], h: Handle, bit: u64) -> Answer
    requires { Sized t.now }
    ensures { result ≡ (caller_with bit h (view t.now)).answer }
{
    let d = live_domain(t, h)?;
    let interface = rows::load::<Interface>(t, d as usize);
    if has(interface.word, bit) {
        return Ok(d);
    }
    Err(Refusal::NotAllowed)
}

// 6; the answer is the region's slot.
pub fn live_region(t: &[u64], h: Handle) -> Answer
    requires { Sized t.now }
    ensures { result ≡ (live_region h (view t.now)).answer }
{
    if pools::is_live(t, Pool::Regions, h) {
        Ok(h.slot)
    } else {
        Err(Refusal::Stale)
    }
}

// 5, 6: a capability that is in use, as a live region.
fn as_region(t: &[u64], x: Slot) -> Answer
    requires { Sized t.now }
    ensures { result ≡ (as_region x (view t.now)).answer }
{
    match x.kind {
        Slot::REGION => live_region(t, x.handle),
        _ => Err(Refusal::WrongKind),
    }
}

// 5, 3: as a live domain to send to, by a Management or a Channel capability.
fn as_target(t: &[u64], x: Slot) -> Answer
    requires { Sized t.now }
    ensures { result ≡ (as_target x (view t.now)).answer }
{
    match x.kind {
        Slot::MANAGEMENT | Slot::CHANNEL => live_domain(t, x.handle),
        _ => Err(Refusal::WrongKind),
    }
}

// 4, 5, 6: the live region that local slot l of domain d holds.
pub fn region_held(t: &[u64], d: usize, l: usize) -> Answer
    requires { Sized t.now }
    ensures { result ≡ (region_held d l (view t.now)).answer }
{
    let x = slots::capa_at(t, d, l);
    if x.kind == Slot::FREE {
        return Err(Refusal::NoSlot);
    }
    as_region(t, x)
}

// 4, 5, 3: the live domain that it names.
pub fn target_held(t: &[u64], d: usize, l: usize) -> Answer
    requires { Sized t.now }
    ensures { result ≡ (target_held d l (view t.now)).answer }
{
    let x = slots::capa_at(t, d, l);
    if x.kind == Slot::FREE {
        return Err(Refusal::NoSlot);
    }
    as_target(t, x)
}

// 11, 12, 7.
pub fn room_for_region(t: &mut [u64], d: usize, a: AccessRights) -> Answer
    requires { Sized t.old }
    ensures value { result ≡ (room_for_region d a (view t.old)).answer }
    ensures left { Left t.new (room_for_region d a (view t.old)).tables }
{
    if pools::capacity(t, Pool::Regions) == 0 {
        return Err(Refusal::NoRegion);
    }
    domain::reserve(t, d)?;
    if a.start < a.end {
        return Ok(0);
    }
    Err(Refusal::BadRange)
}
