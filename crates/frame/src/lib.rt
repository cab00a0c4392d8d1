// What every call does before and after its own work: test the lent memory, keep a copy of the tables, put it back, clear the work area.

#![tactic(auto)]

ghost use Rattle.std.specs.Prelude.{◌≡◌};
ghost use Rattle.model.specs.Memory.{zeroed};
ghost use Rattle.frame.specs.Finish.{admitted, kept, finished};
ghost use Rattle.replies.specs.ReplyFor.{reply_for};

use answers::Answer;
use replies::Reply;

// Whether the call may run: both lengths are right and the tables are sound. The work area is then all zero.
pub fn admits(t: &[u64], w: &mut [u64]) -> bool
    ensures { (result ≡ admitted t.now w.old) × (w.new ≡ zeroed w.old) }
{
    words::clear(w);
    if w.len() == t.len() {
        return sound::is_sound(t, w);
    }
    false
}

// The same, and the work area becomes a copy of the tables where the call may run.
pub fn begin(t: &[u64], w: &mut [u64]) -> bool
    ensures { (result ≡ admitted t.now w.old) × (w.new ≡ kept t.now w.old) }
{
    if admits(t, w) {
        words::copy(t, w);
        return true;
    }
    false
}

// Puts the copy back where the call is refused, and clears the work area.
pub fn finish(t: &mut [u64], w: &mut [u64], a: Answer) -> Reply
    ensures { (result ≡ reply_for a) × (t.new ≡ finished a t.old w.old) × (w.new ≡ zeroed w.old) }
{
    match a {
        Ok(value) => {
            words::clear(w);
            Reply { refusal: 0, value }
        }
        Err(r) => {
            words::copy(w, t);
            words::clear(w);
            Reply::from(r)
        }
    }
}
