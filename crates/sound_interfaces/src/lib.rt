// The test of the domains' interfaces in lent tables (document 02, request 2). Any words may stand in the tables.

#![tactic(auto)]

ghost use Rattle.std.specs.Prelude.{◌≡◌};
ghost use Rattle.tables.specs.View.{view, Sized};
ghost use Rattle.sections.specs.Rows.{interface_in};
ghost use Rattle.sound_interfaces.specs.Interfaces.{interface_fits, row_holds, interfaces_hold};

use pools::Pool;
use tables::Interface;

#[tactic(auto, unfolding(crate::specs::Interfaces::interface_fits))]
fn interface_fits(free: bool, x: Interface) -> bool
    ensures { result ≡ interface_fits free x }
{
    if free {
        x.word == 0 && x.frozen == 0
    } else {
        x.frozen <= 1
    }
}

#[tactic(auto, unfolding(crate::specs::Interfaces::row_holds))]
fn row_holds(links: &[u64], p: &[u64], i: usize) -> bool
    ensures { result ≡ row_holds links.now (interface_in p.now) i }
{
    let free = 0 < words::word(links, i);
    interface_fits(free, sections::row_in::<Interface>(p, i))
}

// Whether each domain in use has a word that is frozen or not, and each free slot two zeros.
pub fn interfaces_hold(t: &[u64]) -> bool
    requires { Sized t.now }
    ensures { result ≡ interfaces_hold (view t.now) }
{
    let n = words::size(t, sizes::DOMAINS);
    let links = sections::links_of(t, Pool::Domains);
    let p = sections::rows_of::<Interface>(t);
    (0..n).all(|i| row_holds(links, p, i))
}
