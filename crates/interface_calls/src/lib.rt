// Interfaces of domains (document 02, request 2): the word set, and frozen.

#![tactic(auto)]

ghost use Rattle.std.specs.Prelude.{◌≡◌};
ghost use Rattle.tables.specs.View.{view, Sized, Left};
ghost use Rattle.interface_calls.specs.Calls.{set_interface, freeze_interface};

use answers::Answer;
use refusals::Refusal;
use tables::{Handle, Interface};

// 3, 21: any word, where it is not frozen.
pub fn set_interface(t: &mut [u64], h: Handle, word: u64) -> Answer
    requires { Sized t.old }
    ensures value { result ≡ (set_interface h word (view t.old)).answer }
    ensures left { Left t.new (set_interface h word (view t.old)).tables }
{
    let d = checks::live_domain(t, h)?;
    let old = rows::load::<Interface>(t, d as usize);
    if old.frozen == 0 {
        rows::store(t, d as usize, Interface { word, frozen: 0 });
        return Ok(0);
    }
    Err(Refusal::Frozen)
}

// 3: the word stays. One that is frozen is frozen again.
pub fn freeze_interface(t: &mut [u64], h: Handle) -> Answer
    requires { Sized t.old }
    ensures value { result ≡ (freeze_interface h (view t.old)).answer }
    ensures left { Left t.new (freeze_interface h (view t.old)).tables }
{
    let d = checks::live_domain(t, h)?;
    let mut interface = rows::load::<Interface>(t, d as usize);
    interface.frozen = 1;
    rows::store(t, d as usize, interface);
    Ok(0)
}
