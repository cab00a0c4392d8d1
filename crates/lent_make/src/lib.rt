// Making empty tables: the sizes are tested first, then the lengths alone.

#![tactic(auto)]

ghost use Rattle.model.specs.Perform.{Call};
ghost use Rattle.call.specs.Arguments.{sizes};
ghost use Rattle.replies.specs.Replies.{reply_of, Returns};

use refusals::Refusal;
use replies::Reply;
use sizes::Sizes;

pub fn make_tables(
    t: &mut [u64],
    w: &mut [u64],
    domains: u64,
    slots: u64,
    regions: u64,
    records: u64,
    updates: u64,
) -> Reply
    ensures { Returns reply_of t.old w.old (Call.Make (sizes domains slots regions records updates)) result t.new w.new }
{
    words::clear(w);
    let z = Sizes {
        domains: domains as usize,
        slots: slots as usize,
        regions: regions as usize,
        records: records as usize,
        updates: updates as usize,
    };
    if !sizes::limits_hold(z) {
        return Reply::from(Refusal::Sizes);
    }
    let n = sizes::total_of(z);
    if t.len() == n && w.len() == n {
        making::make_empty(t, z);
        return Reply {
            refusal: 0,
            value: 0,
        };
    }
    Reply::from(Refusal::Memory)
}
