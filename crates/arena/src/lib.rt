// `FreeList` and `GenArena` over a length n, in 2 + 2n words: head, count, n links, n generations (document 01, "Arenas").
// A link is 0 where the slot is in use, and k + 1 where it is free and slot k comes after it. What allocates and frees is crate `free_list`'s.
// Words and number of slots stay two arguments: a struct with a `&mut` owes in each contract that it keeps the borrow.

#![tactic(auto)]

ghost use Rattle.std.specs.Prelude.{◌≡◌, length, get_or};
ghost use Rattle.tables.specs.View.{arena_of};
ghost use Rattle.sizes.specs.Sizes.{pool_width};
ghost use Rattle.arena.specs.Arena.{with_top, with_link, with_gen, is_free_b, live_b, capacity_of};

use tables::Handle;

// ---- The words by their meaning

pub fn link(p: &[u64], n: usize, i: usize) -> u64
    requires { length p.now ≡ pool_width n }
    ensures { result ≡ get_or (arena_of n p.now).links i 0 }
{
    if i < n { p[2 + i] } else { 0 }
}

pub fn generation(p: &[u64], n: usize, i: usize) -> u64
    requires { length p.now ≡ pool_width n }
    ensures { result ≡ get_or (arena_of n p.now).gens i 0 }
{
    if i < n { p[2 + n + i] } else { 0 }
}

pub fn set_top(p: &mut [u64], n: usize, head: u64, count: u64)
    requires { length p.old ≡ pool_width n }
    ensures { arena_of n p.new ≡ with_top (arena_of n p.old) head count }
{
    p[0] = head;
    p[1] = count;
}

pub fn set_link(p: &mut [u64], n: usize, i: usize, v: u64)
    requires { length p.old ≡ pool_width n }
    ensures { arena_of n p.new ≡ with_link (arena_of n p.old) i v }
{
    if i < n {
        p[2 + i] = v;
    }
}

pub fn set_generation(p: &mut [u64], n: usize, i: usize, v: u64)
    requires { length p.old ≡ pool_width n }
    ensures { arena_of n p.new ≡ with_gen (arena_of n p.old) i v }
{
    if i < n {
        p[2 + n + i] = v;
    }
}

// ---- Readings

// Whether slot i is free.
pub fn is_free(p: &[u64], n: usize, i: usize) -> bool
    requires { length p.now ≡ pool_width n }
    ensures { result ≡ is_free_b (arena_of n p.now) i }
{
    0 < link(p, n, i)
}

// Whether the handle's slot is in use and has its generation.
pub fn is_live(p: &[u64], n: usize, h: Handle) -> bool
    requires { length p.now ≡ pool_width n }
    ensures { result ≡ live_b (arena_of n p.now) h }
{
    let i = h.slot as usize;
    let used = link(p, n, i) == 0;
    let same = generation(p, n, i) == h.generation;
    i < n && (used && same)
}

// How many slots are left.
pub fn capacity(p: &[u64], n: usize) -> usize
    requires { length p.now ≡ pool_width n }
    ensures { result ≡ capacity_of (arena_of n p.now) }
{
    let count = words::size(p, 1);
    n.saturating_sub(count)
}
