// A record's call on lent tables, by the one function that runs every such call.
ghost use Rattle.replies.specs.Replies.{reply_of, Returns};
ghost use Rattle.script_records.specs.Parsed.{call_in};
ghost use Rattle.naming.specs.Given.{Given};

use replies::Reply;
use script_records::Record;

// The call that a record names.
pub fn run(t: &mut [u64], w: &mut [u64], r: Record) -> Reply
    requires { Given r }
    ensures { Returns reply_of t.old w.old (call_in r) result t.new w.new }
{
    lent_steps::run(t, w, naming::call_of(r))
}
