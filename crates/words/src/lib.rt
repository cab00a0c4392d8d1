// Words of a lent slice. Every function is total: outside the slice nothing is read or written.

#![tactic(auto)]

ghost use Rattle.std.specs.Prelude.{◌≡◌, length, get_or, set, replicate};
ghost use Rattle.words.specs.Runs.{fetched, stored};
ghost use Rattle.words.specs.Copies.{copied};

// The word at i, or 0 past the end.
pub fn word(t: &[u64], i: usize) -> u64
    ensures { result ≡ get_or t.now i 0 }
{
    t.get(i).copied().unwrap_or(0)
}

// The same as a size.
pub fn size(t: &[u64], i: usize) -> usize
    ensures { result ≡ get_or t.now i 0 }
{
    word(t, i) as usize
}

// Stores v at i; nothing past the end.
pub fn put(t: &mut [u64], i: usize, v: u64)
    ensures { t.new ≡ set t.old i v }
{
    if i < t.len() {
        t[i] = v;
    }
}

// Makes the words those of `from`; nothing where the lengths differ.
pub fn copy(from: &[u64], to: &mut [u64])
    ensures { to.new ≡ copied from.now to.old }
{
    if from.len() == to.len() {
        for i in 0..from.len() {
            to[i] = from[i];
        }
    }
}

// Makes every word 0.
pub fn clear(t: &mut [u64])
    ensures { t.new ≡ replicate (length t.old) 0 }
{
    for i in 0..t.len() {
        t[i] = 0;
    }
}

// The n words from a on; none where they do not all lie in the slice.
pub fn run(t: &[u64], a: usize, n: usize) -> &[u64]
    ensures { result.now ≡ fetched t.now a n }
{
    if n <= t.len() && a <= t.len() - n {
        &t[a..a + n]
    } else {
        &[]
    }
}

// Writes the words vs from a on; nothing where they do not all fit.
pub fn store(t: &mut [u64], a: usize, vs: &[u64])
    ensures { t.new ≡ stored t.old a vs.now }
{
    let n = vs.len();
    if n <= t.len() && a <= t.len() - n {
        copy(vs, &mut t[a..a + n]);
    }
}
