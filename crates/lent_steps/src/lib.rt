// A call that is one step, on lent memory: what every call does around its own work (crate `frame`), with that step between.

#![tactic(auto)]

ghost use Rattle.std.specs.Prelude.{◌≡◌, true};
ghost use Rattle.model.specs.Perform.{Call};
ghost use Rattle.model.specs.CallWords.{StepWords};
ghost use Rattle.call.specs.Steps.{step_named};
ghost use Rattle.replies.specs.Replies.{reply_of, Returns};
ghost use Rattle.lent_steps.specs.Unkept.{checks_first};

use refusals::Refusal;
use replies::Reply;

// A call that is one step, on lent memory: all that the exported functions of such calls do.
pub fn run(t: &mut [u64], w: &mut [u64], call: call::Call) -> Reply
    requires { StepWords (step_named call) }
    ensures { Returns reply_of t.old w.old (Call.Do (step_named call)) result t.new w.new }
{
    if frame::begin(t, w) {
        let a = calls::step(t, call);
        return frame::finish(t, w, a);
    }
    Reply::from(Refusal::Memory)
}

// The same for a call that is refused, if at all, before its first change: nothing has to be put back, so no copy is kept.
pub fn run_unkept(t: &mut [u64], w: &mut [u64], call: call::Call) -> Reply
    requires step_words { StepWords (step_named call) }
    requires call_value { checks_first (step_named call) ≡ true }
    ensures { Returns reply_of t.old w.old (Call.Do (step_named call)) result t.new w.new }
{
    if frame::admits(t, w) {
        let answer = calls::step(t, call);
        return Reply::from(answer);
    }
    Reply::from(Refusal::Memory)
}
