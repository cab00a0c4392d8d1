// Steps on domain d as answers: room in its list, a capability put there, and a range gained or lost with the update that this
// queues (document 01, **Tracker**, **Updates**).
ghost use Rattle.std.specs.Prelude.{◌≡◌};
ghost use Rattle.tables.specs.View.{view, Sized, Left};
ghost use Rattle.domain.specs.Activate.{or_refused, reserve, insert, notify, cleanup, notify_if, activate, deactivate};

use answers::Answer;
use pools::Pool;
use refusals::Refusal;
use region::AccessRights;
use tables::{DomainHead, Slot};

fn or_refused(ok: bool, r: Refusal) -> Answer
    ensures { result ≡ or_refused r ok }
{
    if ok { Ok(0) } else { Err(r) }
}

// 12 where no slot is free after a sweep.
pub fn reserve(t: &mut [u64], d: usize) -> Answer
    requires { Sized t.old }
    ensures value { result ≡ (reserve d (view t.old)).answer }
    ensures left { Left t.new (reserve d (view t.old)).tables }
{
    let room = slots::has_capacity_for(t, d);
    or_refused(room, Refusal::NoLocal)
}

// The answer is the slot.
pub fn insert(t: &mut [u64], d: usize, capa: Slot) -> Answer
    requires { Sized t.old }
    ensures value { result ≡ (insert d capa (view t.old)).answer }
    ensures left { Left t.new (insert d capa (view t.old)).tables }
{
    let i = slots::insert_capa(t, d, capa).ok_or(Refusal::NoLocal)?;
    Ok(i as u64)
}

// ---- Updates

// Queues domain d with its core map and marks; where it is queued already, the marks are gathered there.
fn notify(t: &mut [u64], d: usize, marks: u64) -> Answer
    requires { Sized t.old }
    ensures value { result ≡ (notify d marks (view t.old)).answer }
    ensures left { Left t.new (notify d marks (view t.old)).tables }
{
    let head = rows::load::<DomainHead>(t, d);
    let generation = pools::generation(t, Pool::Domains, d);
    let queued = update::queue_domain(t, d as u64, generation, head.cores, marks);
    or_refused(queued, Refusal::RingFull)
}

pub fn cleanup(t: &mut [u64], start: u64, end: u64) -> Answer
    requires { Sized t.old }
    ensures value { result ≡ (cleanup start end (view t.old)).answer }
    ensures left { Left t.new (cleanup start end (view t.old)).tables }
{
    let queued = update::push_cleanup(t, start, end);
    or_refused(queued, Refusal::RingFull)
}

// Where a count left or came to 0 (`PermissionChange`). A closing domain queues nothing (document 02, request 5).
fn notify_if(t: &mut [u64], d: usize, marks: u64, closing: u64) -> Answer
    requires { Sized t.old }
    ensures value { result ≡ (notify_if closing d marks (view t.old)).answer }
    ensures left { Left t.new (notify_if closing d marks (view t.old)).tables }
{
    if closing_set::is_closing(closing, d) {
        return Ok(0);
    }
    if marks == 0 {
        return Ok(0);
    }
    notify(t, d, marks)
}

// ---- A range gained and lost; `closing` has the domains that are closing

pub fn activate_region(t: &mut [u64], d: usize, a: AccessRights, closing: u64) -> Answer
    requires { Sized t.old }
    ensures value { result ≡ (activate closing d a (view t.old)).answer }
    ensures left { Left t.new (activate closing d a (view t.old)).tables }
{
    let marks = tracker::add_region(t, d, a)?;
    notify_if(t, d, marks, closing)
}

pub fn deactivate_region(t: &mut [u64], d: usize, a: AccessRights, closing: u64) -> Answer
    requires { Sized t.old }
    ensures value { result ≡ (deactivate closing d a (view t.old)).answer }
    ensures left { Left t.new (deactivate closing d a (view t.old)).tables }
{
    let marks = tracker::remove_region(t, d, a)?;
    notify_if(t, d, marks, closing)
}
