// The test of one update of the ring and of the marks beside it, and whether two updates are of the same domain. The
// ring itself is tested by crate `sound_queue`.

#![tactic(auto)]

ghost use Rattle.std.specs.Prelude.{◌≡◌};
ghost use Rattle.tables.specs.View.{view, Sized};
ghost use Rattle.sound_updates.specs.Updates.{clear_b, well_formed_b, fits_in, update_fits, marks_fit, same_domain};

use pools::Pool;
use tables::{Handle, Update};

fn is_clear(u: Update) -> bool
    ensures { result ≡ clear_b u }
{
    u == Update::default()
}

fn is_well_formed(u: Update) -> bool
    ensures { result ≡ well_formed_b u }
{
    u.kind == Update::PERMISSION || (u.kind == Update::CLEANUP && u.c == 0)
}

// Whether the domain of a permission update is live, or was closed: its handle is then older than the slot's generation.
fn handle_fits(t: &[u64], u: Update) -> bool
    requires { Sized t.now }
    ensures { result ≡ fits_in (view t.now) u }
{
    let handle = Handle {
        slot: u.a,
        generation: u.b,
    };
    u.kind != Update::PERMISSION
        || pools::is_live(t, Pool::Domains, handle)
        || u.b < pools::generation(t, Pool::Domains, u.a as usize)
}

// Whether an update that is queued, or a place where none is, holds.
#[tactic(auto, unfolding(crate::specs::Updates::update_fits))]
pub fn update_fits(t: &[u64], u: Update, queued: bool) -> bool
    requires { Sized t.now }
    ensures { result ≡ update_fits (view t.now) u queued }
{
    if queued {
        is_well_formed(u) && handle_fits(t, u)
    } else {
        is_clear(u)
    }
}

// Whether the marks beside an update hold: five bits beside a permission update, none elsewhere (document 02, request 4).
#[tactic(auto, unfolding(crate::specs::Updates::marks_fit))]
pub fn marks_fit(u: Update, marks: u64) -> bool
    ensures { result ≡ marks_fit u marks }
{
    if u.kind == Update::PERMISSION {
        marks < 32
    } else {
        marks == 0
    }
}

// Whether both are permission updates of the same handle.
#[tactic(auto, unfolding(crate::specs::Updates::same_domain))]
pub fn is_same(u: Update, x: Update) -> bool
    ensures { result ≡ same_domain u x }
{
    let kinds = u.kind == Update::PERMISSION && x.kind == Update::PERMISSION;
    kinds && u.a == x.a && u.b == x.b
}
