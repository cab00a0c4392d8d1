// Claims: each item of a walk claims a number, or nothing, which is 0. The marks are words: one for each number that may be
// claimed.

#![tactic(auto)]

ghost use Rattle.std.specs.Prelude.{◌≡◌};
ghost use Rattle.claims.specs.Marks.{takes, marked, left_by};
ghost use Rattle.claims.specs.Walk.{marking, taken};

// Whether every claim so far fits, and how many are left to be claimed. No `Option`: `left` counts on where one does not fit, as the definition does.
#[derive(Clone, Copy)]
pub struct Tally {
    pub fits: bool,
    pub left: usize,
}

// ---- The marks

// Sets the mark of number c; nothing where c is 0. False where there is none, or it is set.
#[tactic(auto, unfolding(crate::specs::Marks::takes, crate::specs::Marks::marked))]
fn claim(m: &mut [u64], c: usize) -> bool
    ensures value { result ≡ takes m.old c }
    ensures m_after { m.new ≡ marked m.old c }
{
    if c == 0 {
        return true;
    }
    let i = c - 1;
    let fresh = c <= m.len() && words::word(m, i) == 0;
    words::put(m, i, 1);
    fresh
}

#[tactic(auto, unfolding(crate::specs::Marks::left_by))]
fn left_by(left: usize, c: usize) -> usize
    ensures { result ≡ left_by left c }
{
    if c == 0 { left } else { left.saturating_sub(1) }
}

// What was seen, and then c claimed.
#[tactic(auto, unfolding(crate::specs::Walk::taken))]
pub fn take(m: &mut [u64], y: Tally, c: usize) -> Tally
    ensures { marking m.new result ≡ taken (marking m.old y) c }
{
    let fresh = claim(m, c);
    Tally {
        fits: fresh && y.fits,
        left: left_by(y.left, c),
    }
}
