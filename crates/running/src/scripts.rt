// Records taken from the bytes at hand, one by one.
ghost use Rattle.script_records.specs.Parsed.{parsed};
ghost use Rattle.running.specs.Takes.{Takes};
ghost use Rattle.running.specs.BetweenRecords.{RunsAll};
ghost use Rattle.running.specs.RunScript.{RanScript};

use crate::perform;
use replies::Reply;
use script_progress::{Place, Ran};
use script_records::BadRecord;

// One record at the front of the bytes at hand: parsed, and run. `None` where part of a record is there that can still be a call: more bytes
// are needed. Where no record is there, whatever follows, the refusal is 17.
pub fn take(b: &[u8], t: &mut [u64], w: &mut [u64]) -> Result<Option<Ran>, BadRecord>
    ensures { Takes (parsed b.now) t.old w.old result t.new w.new }
{
    match script_records::parse(b) {
        Ok(Some(r)) => Ok(Some(Ran {
            reply: perform::run(t, w, r),
            size: r.kind.size(),
        })),
        Ok(None) => Ok(None),
        Err(bad) => Err(bad),
    }
}

// The records of the bytes, to their end or to the first bad one; the value is the number of calls run.
fn run_records(b: &[u8], t: &mut [u64], w: &mut [u64]) -> Reply
    ensures { RunsAll b.now t.old w.old result t.new w.new }
{
    let mut p = Place { at: 0, calls: 0 };
    while p.at < b.len() {
        let Ok(Some(x)) = take(&b[p.at..], t, w) else {
            return script_progress::bad_record(p.calls);
        };
        p = script_progress::behind(p, x);
    }
    Reply {
        refusal: 0,
        value: p.calls,
    }
}

// A whole script: makes its tables in the lent memory and runs the records of the lent bytes on them. The reply is the making's where that is
// refused; else 0, or 17 where a bad record ended the script, with the number of calls run.
pub fn run_script(b: &[u8], t: &mut [u64], w: &mut [u64]) -> Reply
    ensures { RanScript b.now t.old w.old result t.new w.new }
{
    let made = lent_make::make_tables(t, w, 8, 16, 128, 128, 32);
    if made.refusal == 0 {
        return run_records(b, t, w);
    }
    made
}
