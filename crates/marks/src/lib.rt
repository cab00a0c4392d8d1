// Marks for numbered slots as bits of 64-bit words: slot i is bit i % 64 of word i / 64 of a work area. Past its end nothing is marked.

#![tactic(auto)]

ghost use Rattle.std.specs.Prelude.{◌≡◌};
ghost use Rattle.marks.specs.Marks.{marked, with_mark, unmarked};

pub fn is_marked(w: &[u64], i: usize) -> bool
    ensures { result ≡ marked w.now i }
{
    (words::word(w, i / 64) >> (i % 64)) % 2 == 1
}

pub fn mark(w: &mut [u64], i: usize)
    ensures { w.new ≡ with_mark w.old i }
{
    let x = words::word(w, i / 64);
    let bit = 1u64 << (i % 64);
    words::put(w, i / 64, x | bit);
}

// Clears the words that the marks of n slots stand in.
pub fn clear(w: &mut [u64], n: usize)
    ensures { w.new ≡ unmarked w.old n }
{
    let k = n.div_ceil(64);
    if k <= w.len() {
        w[..k].fill(0);
    }
}
