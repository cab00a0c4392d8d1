// Openings on lent memory: the step, and the generation of the slot that it answers.

#![tactic(auto)]

ghost use Rattle.std.specs.Prelude.{◌≡◌};
ghost use Rattle.std.proofs.Math.Option.{none, some};
ghost use Rattle.model.specs.Perform.{Call, Step};
ghost use Rattle.tables.specs.View.{view, Sized};
ghost use Rattle.call.specs.Arguments.{handle};
ghost use Rattle.replies.specs.Replies.{domain_reply_of, Returns};
ghost use Rattle.frame.specs.Finish.{opened_for};

use pools::Pool;
use replies::{DomainReply, Reply};

// An accepted opening's slot, with the generation that it has.
fn opened(t: &[u64], r: Reply) -> DomainReply
    requires { r.refusal ≡ 0 → Sized t.now }
    ensures { result ≡ opened_for (view t.now) r }
{
    if r.refusal == 0 {
        return DomainReply {
            refusal: 0,
            slot: r.value,
            generation: pools::generation(t, Pool::Domains, r.value as usize),
        };
    }
    replies::no_domain(r.refusal)
}

// A domain without a manager.
pub fn open_domain(t: &mut [u64], w: &mut [u64], cores: u64) -> DomainReply
    ensures { Returns domain_reply_of t.old w.old (Call.Do (Step.Open none cores)) result t.new w.new }
{
    let r = lent_steps::run(t, w, domain_arguments::open(cores));
    opened(t, r)
}

// A domain whose manager gets a Management capability.
pub fn open_under(
    t: &mut [u64],
    w: &mut [u64],
    manager: u64,
    generation: u64,
    cores: u64,
) -> DomainReply
    ensures { Returns domain_reply_of t.old w.old (Call.Do (Step.Open (some (handle manager generation)) cores)) result t.new w.new }
{
    let r = lent_steps::run(
        t,
        w,
        domain_arguments::open_under(manager, generation, cores),
    );
    opened(t, r)
}
