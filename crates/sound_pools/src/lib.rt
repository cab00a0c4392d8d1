// The test of pools and slot lists in lent tables: every slot is in use or free once, each tracker record is on one list,
// and what is free is all zero. The work area holds a bit for each slot that was met, and is zero again afterwards.

#![tactic(auto)]

ghost use Rattle.std.specs.Prelude.{◌≡◌, length, replicate};
ghost use Rattle.tables.specs.View.{view, Sized};
ghost use Rattle.sound_pools.specs.Hold.{outside_pools_hold, record_pool_holds};

use list_links::Stack;
use sound_lists::walks;

pub mod trackers;

// The pools of domains and of regions, with their rows and the slot lists. `w` is a work area as long as the tables, and all zero.
#[tactic(auto, unfolding(crate::specs::Hold::pool_holds))]
pub fn outside_pools_hold(t: &[u64], w: &mut [u64]) -> bool
    requires sized { Sized t.now }
    requires w_len { length w.old ≡ length t.now }
    requires w_value { w.old ≡ replicate (length w.old) 0 }
    ensures value { result ≡ outside_pools_hold (view t.now) }
    ensures w_unchanged { w.new ≡ w.old }
{
    walks::stack_holds(t, Stack::Domains, w)
        && sound_rows::domains_hold(t, w)
        && walks::stack_holds(t, Stack::Regions, w)
        && sound_rows::regions_hold(t)
}

// The pool of tracker records, with its rows, and the records in use along the trackers. `w` as above.
#[tactic(auto, unfolding(crate::specs::Hold::pool_holds))]
pub fn record_pool_holds(t: &[u64], w: &mut [u64]) -> bool
    requires sized { Sized t.now }
    requires w_len { length w.old ≡ length t.now }
    requires w_value { w.old ≡ replicate (length w.old) 0 }
    ensures value { result ≡ record_pool_holds (view t.now) }
    ensures w_unchanged { w.new ≡ w.old }
{
    walks::stack_holds(t, Stack::Records, w)
        && sound_rows::records_hold(t)
        && trackers::trackers_hold(t, w)
}
