// Capabilities sent.

#![tactic(auto)]

ghost use Rattle.std.specs.Prelude.{◌≡◌};
ghost use Rattle.tables.specs.View.{view, Sized, Left};
ghost use Rattle.send_calls.specs.Calls.{send_held, send_capa, send};
ghost use Rattle.send_calls.specs.Parts.{passed};

use answers::Answer;
use refusals::Refusal;
use send_options::SendOptions;
use tables::{Handle, Interface, Slot};

// 6, 18, 19, and the region's effective ranges; then what the options say is done.
fn send_held(t: &mut [u64], h: Handle, to: usize, o: SendOptions) -> Answer
    requires { Sized t.old }
    ensures value { result ≡ (send_held h to o (view t.old)).answer }
    ensures left { Left t.new (send_held h to o (view t.old)).tables }
{
    let i = checks::live_region(t, h)?;
    send_options::check_options(o)?;
    segment::send_region(t, i as usize, to)?;
    send_options::apply_options(t, i as usize, o);
    Ok(0)
}

// 4, 10, and for a region 6, 18, 19; for other capabilities the options are ignored.
fn send_capa(t: &mut [u64], x: Slot, to: usize, o: SendOptions) -> Answer
    requires { Sized t.old }
    ensures value { result ≡ (send_capa x to o (view t.old)).answer }
    ensures left { Left t.new (send_capa x to o (view t.old)).tables }
{
    match x.kind {
        Slot::FREE => Err(Refusal::NoSlot),
        Slot::MANAGEMENT => Err(Refusal::NotCarried),
        Slot::REGION => send_held(t, x.handle, to, o),
        _ => Ok(0),
    }
}

// What slot l holds is read after the target's list was swept, which may be the same list.
fn pass(t: &mut [u64], d: usize, l: usize, to: usize, o: SendOptions) -> Answer
    requires { Sized t.old }
    ensures value { result ≡ (passed d l to o (view t.old)).answer }
    ensures left { Left t.new (passed d l to o (view t.old)).tables }
{
    let x = slots::capa_at(t, d, l);
    send_capa(t, x, to, o)?;
    slots::remove_capa(t, d, l);
    domain::insert(t, to, x)
}

pub fn send(t: &mut [u64], h: Handle, l: usize, target: usize, o: SendOptions) -> Answer
    requires { Sized t.old }
    ensures value { result ≡ (send h l target o (view t.old)).answer }
    ensures left { Left t.new (send h l target o (view t.old)).tables }
{
    let d = checks::caller_with(t, h, Interface::SEND)?;
    let to = checks::target_held(t, d as usize, target)?;
    domain::reserve(t, to as usize)?;
    pass(t, d as usize, l, to as usize, o)
}
