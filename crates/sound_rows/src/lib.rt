// The test of the rows of pools in lent tables: what is free is all zero, and a domain in use has a list that holds.

#![tactic(auto)]

ghost use Rattle.std.specs.Prelude.{◌≡◌};
ghost use Rattle.tables.specs.View.{view, Sized};
ghost use Rattle.sound_lists.specs.Marks.{Clean};
ghost use Rattle.sound_rows.specs.Hold.{slots_hold, domain_holds, rows_hold};

use list_links::Stack;
use pools::Pool;
use sound_lists::walks;
use tables::{DomainHead, Region, RegionCapa, Slot};

// Whether the slots of domain d are all zero, or as the kinds say.
fn slots_hold(t: &[u64], d: usize, free: bool) -> bool
    requires { Sized t.now }
    ensures { result ≡ slots_hold (view t.now) d free }
{
    let n = words::size(t, sizes::SLOTS);
    let slots = sections::slots_of(t, d);
    (0..n).all(|j| clear_rows::slot_fits(free, sections::row_in::<Slot>(slots, j)))
}

#[tactic(auto, unfolding(crate::specs::Hold::domain_holds))]
fn domain_holds(t: &[u64], d: usize, w: &mut [u64]) -> bool
    requires sized { Sized t.now }
    requires clean { Clean t.now w.old }
    ensures value { result ≡ domain_holds (view t.now) d }
    ensures w_unchanged { w.new ≡ w.old }
{
    if list_links::may_meet(t, Stack::Domains, d) {
        clear_rows::head_clear(rows::load::<DomainHead>(t, d)) && slots_hold(t, d, true)
    } else {
        slots_hold(t, d, false) && walks::stack_holds(t, Stack::Slots(d), w)
    }
}

pub fn domains_hold(t: &[u64], w: &mut [u64]) -> bool
    requires sized { Sized t.now }
    requires clean { Clean t.now w.old }
    ensures value { result ≡ rows_hold (view t.now) Stack.Domains }
    ensures w_unchanged { w.new ≡ w.old }
{
    let n = list_links::slots_of(t, Stack::Domains);
    for d in 0..n {
        if !domain_holds(t, d, w) {
            return false;
        }
    }
    true
}

// ---- Rows that are read from their section, beside the pool's link

pub fn regions_hold(t: &[u64]) -> bool
    requires { Sized t.now }
    ensures { result ≡ rows_hold (view t.now) Stack.Regions }
{
    let n = list_links::slots_of(t, Stack::Regions);
    let links = sections::links_of(t, Pool::Regions);
    let rows = sections::rows_of::<RegionCapa>(t);
    (0..n).all(|i| words::word(links, i) == 0
        || clear_rows::region_clear(sections::row_in::<RegionCapa>(rows, i)))
}

pub fn records_hold(t: &[u64]) -> bool
    requires { Sized t.now }
    ensures { result ≡ rows_hold (view t.now) Stack.Records }
{
    let n = list_links::slots_of(t, Stack::Records);
    let links = sections::links_of(t, Pool::Records);
    let rows = sections::rows_of::<Region>(t);
    (0..n).all(|i| words::word(links, i) == 0
        || clear_rows::record_clear(sections::row_in::<Region>(rows, i)))
}
