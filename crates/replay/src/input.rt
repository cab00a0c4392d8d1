// Calls as they come in: eleven words of eight bytes each, the lowest byte first.
use crate::Request;
use byte_numbers::number_at;
use std::io::Read;
use tables::Hash;

fn call_of(b: &[u8]) -> Request {
    Request {
        kind: number_at::<8>(b, 0),
        a: number_at::<8>(b, 8),
        b: number_at::<8>(b, 16),
        c: number_at::<8>(b, 24),
        d: number_at::<8>(b, 32),
        e: number_at::<8>(b, 40),
        f: number_at::<8>(b, 48),
        hash: Hash {
            word0: number_at::<8>(b, 56),
            word1: number_at::<8>(b, 64),
            word2: number_at::<8>(b, 72),
            word3: number_at::<8>(b, 80),
        },
    }
}

// Fills b; `None` where the input ends or a read fails before. The library's `read_exact` would read on where a signal ended a read.
fn fill<R: Read>(input: &mut R, b: &mut [u8]) -> Option<()> {
    let mut done = 0;
    while done < b.len() {
        let n = input.read(&mut b[done..]).ok()?;
        if n == 0 {
            return None;
        }
        done += n;
    }
    Some(())
}

// The next call; `None` where the input ends or a read fails before its last byte, and at a call of kind `END`.
pub fn next<R: Read>(input: &mut R) -> Option<Request> {
    let mut b = [0u8; 88];
    fill(input, &mut b)?;
    let c = call_of(&b);
    (c.kind != crate::END).then_some(c)
}
