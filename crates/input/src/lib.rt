// An input through a fixed run of bytes.

#![tactic(auto)]

ghost use Rattle.std.specs.Prelude.{◌≡◌, ◌+◌, ◌<◌, ◌≤◌, ◌^◌, length, IfOk};
ghost use Rattle.input.specs.Buffered.{Within, Keeps, Grows, Whole, behind};
ghost use Rattle.input.specs.Brings.{Brings, Ended};

use std::io;
use std::io::Read;

// What is known of the input behind the bytes at hand. Where a read failed, nobody knows whether the input had ended.
#[derive(Clone, Copy, PartialEq, Eq)]
pub enum Source {
    // More bytes may come.
    Open,
    Ended,
    Failed,
}

// The bytes at hand are those from `at` up to `end`.
#[derive(Clone, Copy)]
pub struct Buffered {
    pub at: usize,
    pub end: usize,
    pub source: Source,
}

// A record has at most 52 bytes.
const RECORD: usize = 52;

// What is at hand when a read behind the bytes h has answered.
fn answered(h: Buffered, got: io::Result<usize>) -> Buffered
    requires { IfOk got (λ n. h.end + n < 2 ^ 64) }
    ensures { result ≡ behind h got }
{
    match got {
        Ok(0) => Buffered {
            source: Source::Ended,
            ..h
        },
        Ok(n) => Buffered {
            end: h.end + n,
            source: Source::Open,
            ..h
        },
        Err(_) => Buffered {
            source: Source::Failed,
            ..h
        },
    }
}

// One read behind the bytes at hand.
fn read_behind<R: Read>(input: &mut R, b: &mut [u8], h: Buffered) -> Buffered
    requires { Within h (length b.old) }
    ensures within { Within result (length b.old) }
    ensures keeps { Keeps h b.old result b.new }
    ensures grows { Grows h result }
    ensures same_start { result.at ≡ h.at }
    ensures brings { Brings (R.remaining input.old) h b.old (R.remaining input.new) result b.new }
    ensures ended { h.end < length b.old → Ended result (R.remaining input.new) }
{
    let got = input.read(&mut b[h.end..]);
    answered(h, got)
}

// Reads until a whole record must be at hand, the input ends or a read fails. A pipe can answer with less than a record.
fn read_on<R: Read>(input: &mut R, b: &mut [u8], h: Buffered) -> Buffered
    requires { Within h (length b.old) }
    ensures within { Within result (length b.old) }
    ensures keeps { Keeps h b.old result b.new }
    ensures whole { Whole result }
    ensures brings { Brings (R.remaining input.old) h b.old (R.remaining input.new) result b.new }
    ensures ended { h.at + 52 ≤ length b.old → Ended h (R.remaining input.old) → Ended result (R.remaining input.new) }
{
    let mut r = h;
    while r.source == Source::Open && r.end - r.at < RECORD {
        r = read_behind(input, b, r);
    }
    r
}

// A whole record at hand, unless the input ends or a read fails before; the bytes that were at hand are still the first.
pub fn ready<R: Read>(input: &mut R, b: &mut [u8], h: Buffered) -> Buffered
    requires { Within h (length b.old) }
    ensures within { Within result (length b.old) }
    ensures keeps { Keeps h b.old result b.new }
    ensures whole { Whole result }
    ensures brings { Brings (R.remaining input.old) h b.old (R.remaining input.new) result b.new }
    ensures ended { 52 ≤ length b.old → Ended h (R.remaining input.old) → Ended result (R.remaining input.new) }
{
    let n = h.end - h.at;
    if RECORD <= n || h.source != Source::Open {
        return h;
    }
    b.copy_within(h.at..h.end, 0);
    let moved = Buffered {
        at: 0,
        end: n,
        source: Source::Open,
    };
    read_on(input, b, moved)
}
