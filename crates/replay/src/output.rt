// A line for each call: the refusal's number or 0, the values of the answer, and the hash of the tables' words. Where a write fails nobody can
// be told, and the next one is tried.
use readings::Permission;
use std::io::Write;

// Writes these bytes, up to a write that takes none or fails. The library's `write_all` would write on where a signal ended a write.
fn bytes<W: Write>(out: &mut W, text: &[u8]) {
    let mut done = 0;
    while done < text.len() {
        let n = out.write(&text[done..]).unwrap_or(0);
        if n == 0 {
            return;
        }
        done += n;
    }
}

pub fn number<W: Write>(out: &mut W, n: u64) {
    let mut digits = [0u8; 20];
    let k = io::decimal(n, &mut digits);
    bytes(out, &digits[..k]);
    bytes(out, b" ");
}

pub fn line_end<W: Write>(out: &mut W) {
    bytes(out, b"\n");
}

// The prime of 64-bit FNV-1a.
const PRIME: u64 = 1099511628211;

// 64-bit FNV-1a, a word at a time.
pub fn hash(t: &[u64]) -> u64 {
    t.iter()
        .fold(14695981039346656037, |h, x| (h ^ *x).wrapping_mul(PRIME))
}

pub fn permission<W: Write>(out: &mut W, p: Permission) {
    number(out, p.start);
    number(out, p.end);
    number(out, p.rights);
}

pub fn slots<W: Write>(out: &mut W, run: &[u64], n: u64) {
    for x in run.iter().take(n as usize) {
        number(out, *x);
    }
}
