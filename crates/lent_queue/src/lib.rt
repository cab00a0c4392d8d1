// The queue of updates.

#![tactic(auto)]

ghost use Rattle.model.specs.Perform.{Call};
ghost use Rattle.replies.specs.Replies.{update_reply_of, Returns};

use refusals::Refusal;
use replies::UpdateReply;

// The oldest update leaves the queue; none where it is empty.
pub fn pop(t: &mut [u64], w: &mut [u64]) -> UpdateReply
    ensures { Returns update_reply_of t.old w.old Call.Pop result t.new w.new }
{
    if frame::admits(t, w) {
        let entry = update::pop_update(t).unwrap_or_default();
        let u = entry.update;
        return UpdateReply {
            refusal: 0,
            kind: u.kind,
            a: u.a,
            b: u.b,
            c: u.c,
            marks: entry.marks,
        };
    }
    UpdateReply {
        refusal: u64::from(Refusal::Memory),
        kind: 0,
        a: 0,
        b: 0,
        c: 0,
        marks: 0,
    }
}
