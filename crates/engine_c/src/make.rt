// Making empty tables.
ghost use Rattle.model.specs.Perform.{Call};
ghost use Rattle.call.specs.Arguments.{sizes};
ghost use Rattle.replies.specs.Replies.{reply_of, Returns};
ghost use Rattle.promise.specs.Calls.{Words, Exported, make-tables};

use replies::Reply;

#[unsafe(no_mangle)]
pub extern "C" fn mityvurno_make_tables(
    t: &mut [u64],
    w: &mut [u64],
    domains: u64,
    slots: u64,
    regions: u64,
    records: u64,
    updates: u64,
) -> Reply
    ensures returns { Returns reply_of t.old w.old (Call.Make (sizes domains slots regions records updates)) result t.new w.new }
    ensures words { Words (make-tables domains slots regions records updates result) × Exported t.old w.old (make-tables domains slots regions records updates result) t.new w.new }
{
    engine::make::mityvurno_make_tables(t, w, domains, slots, regions, records, updates)
}
