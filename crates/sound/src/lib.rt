// The test of lent tables (document 01, **Sound**): whether the words are those of a sound state.

#![tactic(auto)]

ghost use Rattle.std.specs.Prelude.{◌≡◌, length, replicate};
ghost use Rattle.tables.specs.View.{view, Sized};
ghost use Rattle.sound.specs.Test.{tracked_holds, is_sound};

// What the test asks of the trackers and their pool.
fn tracked_holds(t: &[u64], w: &mut [u64]) -> bool
    requires sized { Sized t.now }
    requires w_len { length w.old ≡ length t.now }
    requires w_value { w.old ≡ replicate (length w.old) 0 }
    ensures value { result ≡ tracked_holds (view t.now) }
    ensures w_unchanged { w.new ≡ w.old }
{
    sound_pools::record_pool_holds(t, w) && sound_trackers::trackers_hold(t, w)
}

// `w` is a work area as long as the tables, all zero. Each group is tested only where those before it hold; the trackers come last, for in
// tables that are not sound their test may end late.
#[tactic(auto, using(crate::specs::Rules::sized_words), unfolding(crate::specs::Test::is_sound))]
pub fn is_sound(t: &[u64], w: &mut [u64]) -> bool
    requires w_len { length w.old ≡ length t.now }
    requires w_value { w.old ≡ replicate (length w.old) 0 }
    ensures value { result ≡ is_sound t.now }
    ensures w_unchanged { w.new ≡ w.old }
{
    sizes::is_sized(t)
        && sound_outside::outside_holds(t, w)
        && sound_queue::queue_holds(t)
        && tracked_holds(t, w)
}
