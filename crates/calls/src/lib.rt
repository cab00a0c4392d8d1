// The calls that are one step on the tables, done (lib.rs; document 01, **Order of checks**). A refused call may leave the tables half changed.

#![tactic(auto)]

ghost use Rattle.std.specs.Prelude.{◌≡◌};
ghost use Rattle.tables.specs.View.{view, Sized, Left};
ghost use Rattle.calls.specs.Steps.{step_of};

use answers::Answer;
use call::Call;

// What the call does; the answer is a domain's slot, a local slot, or 0.
pub fn step(t: &mut [u64], call: Call) -> Answer
    requires { Sized t.old }
    ensures value { result ≡ (step_of call (view t.old)).answer }
    ensures left { Left t.new (step_of call (view t.old)).tables }
{
    match call {
        Call::Open(cores) => domain_calls::open_domain(t, cores),
        Call::OpenUnder(h, cores) => domain_calls::open_under(t, h, cores),
        Call::Channel(h, to) => domain_calls::open_channel(t, h, to),
        Call::SetCoreMap(h, cores) => domain_calls::set_core_map(t, h, cores),
        Call::SetInterface(h, word) => interface_calls::set_interface(t, h, word),
        Call::FreezeInterface(h) => interface_calls::freeze_interface(t, h),
        Call::Root(h, a) => region_calls::create_root_region(t, h, a),
        Call::Alias(x) => region_calls::alias_region(t, x.domain, x.local, x.access),
        Call::Carve(x) => carve_calls::carve_region(t, x.domain, x.local, x.access),
        Call::Send(h, local, target, o) => send_calls::send(t, h, local, target, o),
        Call::Revoke(h, local) => revoke_calls::revoke(t, h, local),
        Call::CreateRevokeCapa(h, local) => revoke_calls::create_revoke_capa(t, h, local),
    }
}
