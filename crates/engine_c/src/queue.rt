// The queue of updates.
ghost use Rattle.model.specs.Perform.{Call};
ghost use Rattle.replies.specs.Replies.{update_reply_of, Returns};
ghost use Rattle.promise.specs.Calls.{Words, Exported, pop};

use replies::UpdateReply;

// The oldest update leaves the queue; none where it is empty.
#[unsafe(no_mangle)]
pub extern "C" fn mityvurno_pop(t: &mut [u64], w: &mut [u64]) -> UpdateReply
    ensures returns { Returns update_reply_of t.old w.old Call.Pop result t.new w.new }
    ensures words { Words (pop result) × Exported t.old w.old (pop result) t.new w.new }
{
    engine::queue::mityvurno_pop(t, w)
}
