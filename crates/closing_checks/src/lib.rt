// What is asked before a domain is closed (document 02, request 5): 22 where a domain to be closed holds a root, 23 where one
// has a core map. A free row is all zero, so that it is neither a root nor has one.

#![tactic(auto)]

ghost use Rattle.std.specs.Prelude.{◌≡◌};
ghost use Rattle.tables.specs.View.{view, Sized};
ghost use Rattle.closing_checks.specs.Closes.{closes_with_b, root_to_close_b, closes_root_b, running_to_close_b, closes_running_b};

use tables::{DomainHead, RegionCapa};

// Whether domain e is closed with domain d: it is d, or its managers lead there. It has no more managers above it than there
// are domains, or they go round.
pub fn closes_with(t: &[u64], d: usize, e: usize) -> bool
    requires { Sized t.now }
    ensures { result ≡ closes_with_b (view t.now) d e }
{
    let mut at = e;
    for _ in 0..words::size(t, sizes::DOMAINS) {
        if at == d {
            return true;
        }
        let head = rows::load::<DomainHead>(t, at);
        if head.manager == 0 {
            return false;
        }
        at = tables::slot_to(head.manager);
    }
    at == d
}

// ---- 22

#[tactic(auto, unfolding(crate::specs::Closes::root_to_close_b))]
fn root_to_close(t: &[u64], d: usize, i: usize) -> bool
    requires { Sized t.now }
    ensures { result ≡ root_to_close_b (view t.now) d i }
{
    let g = rows::load::<RegionCapa>(t, i);
    g.kind == RegionCapa::ROOT && closes_with(t, d, tables::slot_to(g.owner))
}

// Whether a domain that is closed with domain d owns a root.
pub fn closes_root(t: &[u64], d: usize) -> bool
    requires { Sized t.now }
    ensures { result ≡ closes_root_b (view t.now) d }
{
    (0..words::size(t, sizes::REGIONS)).any(|i| root_to_close(t, d, i))
}

// ---- 23

#[tactic(auto, unfolding(crate::specs::Closes::running_to_close_b))]
fn running_to_close(t: &[u64], d: usize, e: usize) -> bool
    requires { Sized t.now }
    ensures { result ≡ running_to_close_b (view t.now) d e }
{
    let head = rows::load::<DomainHead>(t, e);
    head.cores != 0 && closes_with(t, d, e)
}

// Whether a domain that is closed with domain d has a core map.
pub fn closes_running(t: &[u64], d: usize) -> bool
    requires { Sized t.now }
    ensures { result ≡ closes_running_b (view t.now) d }
{
    (0..words::size(t, sizes::DOMAINS)).any(|e| running_to_close(t, d, e))
}
