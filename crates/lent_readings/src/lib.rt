// The readings of lent memory (document 01, **Reading**). Each meets the contract of the exported function that calls it; the tables are lent to be read only.

#![tactic(auto)]

ghost use Rattle.std.specs.Prelude.{◌≡◌};
ghost use Rattle.model.specs.Memory.{zeroed};
ghost use Rattle.model.specs.Perform.{Call, Reading};
ghost use Rattle.call.specs.Arguments.{handle};
ghost use Rattle.replies.specs.Replies.{reply_of, Returns, ListsHolders};
ghost use Rattle.lent_readings.specs.Lookup.{domain_read};
ghost use Rattle.lent_readings.specs.Permissions.{Plans};

use answers::Answer;
use refusals::Refusal;
use replies::Reply;
use tables::{DomainHead, Handle};

// How many records fill a run, the link of the first, and the reply.
#[derive(Clone, Copy)]
pub struct Listing {
    pub turns: usize,
    pub at: u64,
    pub reply: Reply,
}

// 1, 3: the slot of a live domain in tables that may be read. The work area is then all zero.
fn domain_read(t: &[u64], w: &mut [u64], domain: u64, generation: u64) -> Answer
    ensures { (result ≡ domain_read t.now w.old domain generation) × (w.new ≡ zeroed w.old) }
{
    if frame::admits(t, w) {
        let h = Handle {
            slot: domain,
            generation,
        };
        return checks::live_domain(t, h);
    }
    Err(Refusal::Memory)
}

pub fn get_refcount(
    t: &[u64],
    w: &mut [u64],
    domain: u64,
    generation: u64,
    start: u64,
    end: u64,
) -> Reply
    ensures { Returns reply_of t.now w.old (Call.Read (Reading.Refcount (handle domain generation) start end)) result t.now w.new }
{
    match domain_read(t, w, domain, generation) {
        Ok(d) => Reply {
            refusal: 0,
            value: readings::get_refcount(t, d as usize, start, end),
        },
        Err(r) => Reply::from(r),
    }
}

pub fn core_map(t: &[u64], w: &mut [u64], domain: u64, generation: u64) -> Reply
    ensures { Returns reply_of t.now w.old (Call.Read (Reading.CoreMap (handle domain generation))) result t.now w.new }
{
    match domain_read(t, w, domain, generation) {
        Ok(d) => {
            let x = rows::load::<DomainHead>(t, d as usize);
            Reply {
                refusal: 0,
                value: x.cores,
            }
        }
        Err(r) => Reply::from(r),
    }
}

// What filling a run of `room` places with the domain's permission list goes by; a refused call has no turn.
pub fn listing_of(t: &[u64], w: &mut [u64], domain: u64, generation: u64, room: usize) -> Listing
    ensures { Plans t.now w.old (handle domain generation) room result w.new }
{
    match domain_read(t, w, domain, generation) {
        Ok(d) => {
            let p = readings::plan_of(t, d as usize, room);
            let reply = Reply {
                refusal: 0,
                value: p.answer,
            };
            Listing {
                turns: p.turns,
                at: p.at,
                reply,
            }
        }
        Err(r) => {
            let reply = Reply::from(r);
            Listing {
                turns: 0,
                at: 0,
                reply,
            }
        }
    }
}

// The slots of the domains with reach above 0 at the address; the value is their number.
pub fn holders(t: &[u64], w: &mut [u64], address: u64, run: &mut [u64]) -> Reply
    ensures { ListsHolders t.now w.old address run.old result w.new run.new }
{
    if frame::admits(t, w) {
        return Reply {
            refusal: 0,
            value: holders::holders(t, address, run),
        };
    }
    Reply::from(Refusal::Memory)
}
