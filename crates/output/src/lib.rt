// Lines of decimal numbers, gathered in a lent run of bytes and written when the next line might not fit. In each function the first n bytes
// of the run are there already, and the answer is how many there are then; which bytes a line has is said in specs/Text.antt.

#![tactic(auto)]

ghost use Rattle.std.specs.Prelude.{◌≡◌, ◌+◌, ◌≤◌, ◌<◌, true, false, [], ◌∷◌, length};
ghost use Rattle.std.specs.Result.{is_ok};
ghost use Rattle.std.specs.Io.KnownBytes.{Keeps};
ghost use Rattle.output.specs.Sent.{Sent, Hands};
ghost use Rattle.output.specs.Text.{Puts, ended, call_line, domain_line, queue_line, numbers_at, decimal as Text·decimal};

use replies::{Reply, UpdateReply};
use std::io::{ErrorKind, Write};

// ---- Parts of a line

fn byte(text: &mut [u8], n: usize, b: u8) -> usize
    requires { n < length text.old }
    ensures { Puts text.old n (b ∷ []) result text.new }
{
    text[n] = b;
    n + 1
}

fn bytes(text: &mut [u8], n: usize, s: &[u8]) -> usize
    requires { n + length s.now ≤ length text.old }
    ensures { Puts text.old n s.now result text.new }
{
    let end = n + s.len();
    text[n..end].copy_from_slice(s);
    end
}

// A number, of at most 20 digits. By crate io and not by `write!`: what that leaves in a slice no contract of std says.
fn decimal(text: &mut [u8], n: usize, x: u64) -> usize
    requires { n + 20 ≤ length text.old }
    ensures puts { Puts text.old n (Text·decimal x) result text.new }
    ensures upper_bound { result ≤ n + 20 }
{
    let mut digits = [0u8; 20];
    let k = io::decimal(x, &mut digits);
    bytes(text, n, &digits[..k])
}

// A space and a number.
fn number(text: &mut [u8], n: usize, x: u64) -> usize
    requires { n + 21 ≤ length text.old }
    ensures puts { Puts text.old n (32 ∷ Text·decimal x) result text.new }
    ensures upper_bound { result ≤ n + 21 }
{
    let m = byte(text, n, b' ');
    decimal(text, m, x)
}

// ---- Lines, of at most 128 bytes

// The k-th call's: "number; ok with the new domain or local number (0 if none), or no with the refusal".
pub fn call_line(text: &mut [u8], n: usize, k: u64, y: Reply) -> usize
    requires { n + 128 ≤ length text.old }
    ensures puts { Puts text.old n (call_line k y) result text.new }
    ensures upper_bound { result ≤ n + 128 }
{
    let a = decimal(text, n, k);
    if y.refusal == 0 {
        let b = bytes(text, a, b" ok");
        let c = number(text, b, y.value);
        return byte(text, c, b'\n');
    }
    let d = bytes(text, a, b" no");
    let e = number(text, d, y.refusal);
    byte(text, e, b'\n')
}

// "d: domain, start, end, rights, reach": five numbers of a run, from `at` on.
pub fn domain_line(text: &mut [u8], n: usize, run: &[u64], at: usize) -> usize
    requires n_in_bounds { n + 128 ≤ length text.old }
    requires at_bound { at < 65536 }
    ensures puts { Puts text.old n (domain_line (numbers_at run.now at 5)) result text.new }
    ensures upper_bound { result ≤ n + 128 }
{
    let mut m = byte(text, n, b'd');
    for i in 0..5 {
        m = number(text, m, words::word(run, at + i));
    }
    byte(text, m, b'\n')
}

// "p domain, cores; c start, end".
pub fn queue_line(text: &mut [u8], n: usize, u: UpdateReply) -> usize
    requires { n + 128 ≤ length text.old }
    ensures puts { Puts text.old n (queue_line u) result text.new }
    ensures upper_bound { result ≤ n + 128 }
{
    if u.kind == 1 {
        return pair(text, n, b'p', u.a, u.c);
    }
    pair(text, n, b'c', u.a, u.b)
}

fn pair(text: &mut [u8], n: usize, letter: u8, x: u64, y: u64) -> usize
    requires { n + 128 ≤ length text.old }
    ensures puts { Puts text.old n (letter ∷ ended (x ∷ y ∷ [])) result text.new }
    ensures upper_bound { result ≤ n + 128 }
{
    let a = byte(text, n, letter);
    let b = number(text, a, x);
    let c = number(text, b, y);
    byte(text, c, b'\n')
}

// ---- Writing

// The first n bytes of the run are yet to be written. `failed`: a write failed, and nothing is written after it. No `Result`:
// lines still go into the run.
#[derive(Clone, Copy)]
pub struct Pending {
    pub n: usize,
    pub failed: bool,
}

// Writes these bytes, or stops at the first write that takes none or fails. Unlike std's function of this name it says which bytes went
// out by then, and tries no write again.
fn write_all<W: Write>(out: &mut W, text: &[u8]) -> std::io::Result<()>
    ensures { Sent (W.contents out.old) text.now (is_ok result) (W.contents out.new) }
{
    let mut rest = text;
    while !rest.is_empty() {
        let n = out.write(rest)?;
        if n == 0 {
            return Err(ErrorKind::WriteZero.into());
        }
        rest = &rest[n..];
    }
    Ok(())
}

// Writes these bytes, unless a write failed before: they would stand behind a line that was cut.
pub fn write<W: Write>(out: &mut W, text: &[u8], p: Pending) -> Pending
    requires { p.n ≤ length text.now }
    ensures n_value { result.n ≡ 0 }
    ensures failed_value { p.failed ≡ true → result.failed ≡ true }
    ensures hands { Hands text.now p (W.contents out.old) result (W.contents out.new) }
{
    if p.failed {
        return Pending { n: 0, failed: true };
    }
    Pending {
        n: 0,
        failed: write_all(out, &text[..p.n]).is_err(),
    }
}

// Writes the bytes that are there unless a line fits behind them.
pub fn room<W: Write>(out: &mut W, text: &[u8], p: Pending) -> Pending
    requires n_in_bounds { p.n ≤ length text.now }
    requires in_bounds { 128 ≤ length text.now }
    ensures n_in_bounds_2 { result.n + 128 ≤ length text.now }
    ensures value { p.n + 128 ≤ length text.now → result ≡ p }
    ensures n_value { length text.now < p.n + 128 → result.n ≡ 0 }
    ensures failed_value { p.failed ≡ true → result.failed ≡ true }
    ensures stays { p.n + 128 ≤ length text.now → Keeps (W.contents out.old) (W.contents out.new) }
    ensures hands { length text.now < p.n + 128 → Hands text.now p (W.contents out.old) result (W.contents out.new) }
{
    if 128 <= text.len() - p.n {
        return p;
    }
    write(out, text, p)
}

// A line on standard error. Where that fails, nobody can be told.
pub fn error_line<W: Write>(err: &mut W, line: &[u8])
    ensures { Sent (W.contents err.old) line.now false (W.contents err.new) }
{
    let _ = write_all(err, line);
}
