// The test of lent tables outside the trackers and the ring (document 01, **Sound**).

#![tactic(auto)]

ghost use Rattle.std.specs.Prelude.{◌≡◌, length, replicate};
ghost use Rattle.tables.specs.View.{view, Sized};
ghost use Rattle.sound_outside.specs.Test.{outside_holds};

// What the test asks outside the trackers and the ring. `w` is a work area as long as the tables, all zero.
pub fn outside_holds(t: &[u64], w: &mut [u64]) -> bool
    requires sized { Sized t.now }
    requires w_len { length w.old ≡ length t.now }
    requires w_value { w.old ≡ replicate (length w.old) 0 }
    ensures value { result ≡ outside_holds (view t.now) }
    ensures w_unchanged { w.new ≡ w.old }
{
    sound_pools::outside_pools_hold(t, w)
        && sound_tree::tree_holds(t, w)
        && sound_hashes::hashes_hold(t)
        && sound_interfaces::interfaces_hold(t)
        && sound_capas::capas_hold(t, w)
}
