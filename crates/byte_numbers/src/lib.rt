// Numbers of several bytes, the lowest byte first.

#![tactic(auto)]

ghost use Rattle.std.specs.Prelude.{◌≡◌, ◌+◌, ◌≤◌, ◌<◌, ◌^◌, get_or, take, drop};
ghost use Rattle.byte_numbers.specs.Numbers.{number, Bytes};

// The byte at i, or 0 past the end.
pub fn byte(b: &[u8], i: usize) -> u64
    ensures { (result ≡ get_or b.now i 0) × (result < 256) }
{
    u64::from(b.get(i).copied().unwrap_or(0))
}

// The number of the N bytes from i on, each as `byte` has it.
pub fn number_at<const N: usize>(b: &[u8], i: usize) -> u64
    requires few { N ≤ 8 }
    requires in_range { i + N < 2 ^ 64 }
    ensures value { result ≡ number (take N (drop i b.now)) }
    ensures upper_bound { result < 256 ^ N }
{
    let mut n = 0;
    for k in (i..i + N).rev() {
        n = 256 * n + byte(b, k);
    }
    n
}

// Does nothing: for a proof that needs to know of lent bytes that they are bytes.
pub fn known(b: &[u8])
    ensures { Bytes b.now }
{}
