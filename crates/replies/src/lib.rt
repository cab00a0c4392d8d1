// What the exported calls return: document 01's number of the refusal, 0 where the call was accepted, and the values of its answer,
// 0 where there is none.

#![tactic(auto)]

ghost use Rattle.std.specs.Prelude.{◌≡◌, Err};
ghost use Rattle.replies.specs.ReplyFor.{reply_for};

use answers::Answer;
use refusals::Refusal;

// The value is a local slot, or a number that was read.
#[repr(C)]
#[derive(Clone, Copy)]
pub struct Reply {
    pub refusal: u64,
    pub value: u64,
}

// The handle of a new domain.
#[repr(C)]
#[derive(Clone, Copy)]
pub struct DomainReply {
    pub refusal: u64,
    pub slot: u64,
    pub generation: u64,
}

// An update as docs/TABLES.md has it: kind 1 with domain slot, generation and core map; kind 2 with start, end and 0; kind 0, none.
// The marks of a domain are those of document 02, request 4; else 0.
#[repr(C)]
#[derive(Clone, Copy)]
pub struct UpdateReply {
    pub refusal: u64,
    pub kind: u64,
    pub a: u64,
    pub b: u64,
    pub c: u64,
    pub marks: u64,
}

impl From<Refusal> for Reply {
    ghost from_gives = { λ r reply. reply ≡ reply_for (Err r) };

    fn from(r: Refusal) -> Reply {
        Reply {
            refusal: u64::from(r),
            value: 0,
        }
    }
}

impl From<Answer> for Reply {
    ghost from_gives = { λ a reply. reply ≡ reply_for a };

    fn from(a: Answer) -> Reply {
        match a {
            Ok(value) => Reply { refusal: 0, value },
            Err(r) => Reply::from(r),
        }
    }
}

pub fn no_domain(refusal: u64) -> DomainReply
    ensures { result ≡ record { refusal = refusal; slot = 0; generation = 0 } }
{
    DomainReply {
        refusal,
        slot: 0,
        generation: 0,
    }
}
