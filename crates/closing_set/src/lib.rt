// The domains whose closing has begun and is not over (document 02, request 5), as bits of one word: domain d is bit d % 64.
// There are no more than 64 domains.

#![tactic(auto)]

ghost use Rattle.std.specs.Prelude.{◌≡◌};
ghost use Rattle.closing_set.specs.Closing.{closing_b, with_closing};

pub fn is_closing(closing: u64, d: usize) -> bool
    ensures { result ≡ closing_b closing d }
{
    (closing >> (d % 64)) % 2 == 1
}

pub fn add(closing: u64, d: usize) -> u64
    ensures { result ≡ with_closing closing d }
{
    let bit = 1u64 << (d % 64);
    bit | closing
}
