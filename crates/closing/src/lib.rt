// A domain is closed (document 02, request 5): what its slots hold is revoked in rising order, then its own slot is freed.
// `close_domain` and `revoke_slot` call each other. `waiting` bounds how deep: it begins as the number of live domains, and is one less for each domain in
// whose turn another's begins. It is not the number of live domains that are not closing, which also falls when a domain below has been closed.

#![tactic(auto)]

ghost use Rattle.std.specs.Prelude.{◌≡◌};
ghost use Rattle.tables.specs.View.{view, Sized, Left};
ghost use Rattle.closing.specs.Close.{revoke_live, freed_domain, revoke_slot, close_domain, close};

use answers::Answer;
use pools::Pool;
use refusals::Refusal;
use tables::{Handle, Slot};

// The region, if it is alive, with all below it.
fn revoke_live(t: &mut [u64], h: Handle, closing: u64) -> Answer
    requires { Sized t.old }
    ensures value { result ≡ (revoke_live closing h (view t.old)).answer }
    ensures left { Left t.new (revoke_live closing h (view t.old)).tables }
{
    if pools::is_live(t, Pool::Regions, h) {
        return revocation::revoke(t, h.slot as usize, closing);
    }
    Ok(0)
}

// 16 where its generation is spent.
fn free_domain(t: &mut [u64], d: usize) -> Answer
    requires { Sized t.old }
    ensures value { result ≡ (freed_domain d (view t.old)).answer }
    ensures left { Left t.new (freed_domain d (view t.old)).tables }
{
    pools::free(t, Pool::Domains, d)?;
    Ok(0)
}

// What slot j of domain d holds.
#[cycle(close_domain_revoke_slot)]
fn revoke_slot(t: &mut [u64], d: usize, j: usize, closing: u64, waiting: u64) -> Answer
    requires { Sized t.old }
    ensures value { result ≡ (revoke_slot waiting closing d j (view t.old)).answer }
    ensures left { Left t.new (revoke_slot waiting closing d j (view t.old)).tables }
{
    let x = slots::capa_at(t, d, j);
    match x.kind {
        Slot::REGION | Slot::REGION_REVOKE => revoke_live(t, x.handle, closing),
        Slot::MANAGEMENT if pools::is_live(t, Pool::Domains, x.handle) => {
            close_domain(t, x.handle.slot as usize, closing, waiting)
        }
        _ => Ok(0),
    }
}

// Domain d is closing from here on.
#[cycle(close_domain_revoke_slot)]
fn close_domain(t: &mut [u64], d: usize, closing: u64, waiting: u64) -> Answer
    requires { Sized t.old }
    ensures value { result ≡ (close_domain waiting closing d (view t.old)).answer }
    ensures left { Left t.new (close_domain waiting closing d (view t.old)).tables }
{
    if waiting == 0 {
        return Err(Refusal::Memory);
    }
    let now_closing = closing_set::add(closing, d);
    let n = words::size(t, sizes::SLOTS);
    for j in 0..n {
        revoke_slot(t, d, j, now_closing, waiting - 1)?;
    }
    free_domain(t, d)
}

// No chain of managers is longer than there are live domains, so that on sound tables `waiting` is never 0.
pub fn close(t: &mut [u64], d: usize) -> Answer
    requires { Sized t.old }
    ensures value { result ≡ (close d (view t.old)).answer }
    ensures left { Left t.new (close d (view t.old)).tables }
{
    let n = pools::count(t, Pool::Domains);
    close_domain(t, d, 0, n)
}
