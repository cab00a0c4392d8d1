// Domains and channels.

#![tactic(auto)]

ghost use Rattle.std.specs.Prelude.{◌≡◌};
ghost use Rattle.tables.specs.View.{view, Sized, Left};
ghost use Rattle.domain_calls.specs.Calls.{open_domain, open_under, open_channel, set_core_map};
ghost use Rattle.domain_calls.specs.Parts.{managed};

use answers::Answer;
use pools::Pool;
use tables::{DomainHead, Handle, Slot};

// A domain without a manager; the answer is its slot.
pub fn open_domain(t: &mut [u64], cores: u64) -> Answer
    requires { Sized t.old }
    ensures value { result ≡ (open_domain cores (view t.old)).answer }
    ensures left { Left t.new (open_domain cores (view t.old)).tables }
{
    new_domain::new_domain(t, 0, cores)
}

// Domain m gets a Management capability for domain i, which is the answer.
fn manage(t: &mut [u64], m: usize, i: u64) -> Answer
    requires { Sized t.old }
    ensures value { result ≡ (managed m i (view t.old)).answer }
    ensures left { Left t.new (managed m i (view t.old)).tables }
{
    domain::reserve(t, m)?;
    let handle = Handle {
        slot: i,
        generation: pools::generation(t, Pool::Domains, i as usize),
    };
    let capa = Slot {
        kind: Slot::MANAGEMENT,
        handle,
    };
    domain::insert(t, m, capa)?;
    Ok(i)
}

// A domain under a manager, which gets a Management capability.
pub fn open_under(t: &mut [u64], h: Handle, cores: u64) -> Answer
    requires { Sized t.old }
    ensures value { result ≡ (open_under h cores (view t.old)).answer }
    ensures left { Left t.new (open_under h cores (view t.old)).tables }
{
    let m = checks::live_domain(t, h)?;
    let i = new_domain::new_domain(t, tables::link_to(m), cores)?;
    manage(t, m as usize, i)
}

// A Channel capability to domain `to`; the answer, here and below, is the local slot.
pub fn open_channel(t: &mut [u64], h: Handle, to: Handle) -> Answer
    requires { Sized t.old }
    ensures value { result ≡ (open_channel h to (view t.old)).answer }
    ensures left { Left t.new (open_channel h to (view t.old)).tables }
{
    let d = checks::live_domain(t, h)?;
    checks::live_domain(t, to)?;
    domain::reserve(t, d as usize)?;
    let capa = Slot {
        kind: Slot::CHANNEL,
        handle: to,
    };
    domain::insert(t, d as usize, capa)
}

pub fn set_core_map(t: &mut [u64], h: Handle, cores: u64) -> Answer
    requires { Sized t.old }
    ensures value { result ≡ (set_core_map h cores (view t.old)).answer }
    ensures left { Left t.new (set_core_map h cores (view t.old)).tables }
{
    let d = checks::live_domain(t, h)?;
    let mut head = rows::load::<DomainHead>(t, d as usize);
    head.cores = cores;
    rows::store(t, d as usize, head);
    Ok(0)
}
