// The free list of a pool (free_list.rs, gen_arena.rs; document 01, "Arenas"): the slot at its head is given, a freed one comes to its front with the
// next generation. The words by their meaning are crate `arena`'s.

#![tactic(auto)]

ghost use Rattle.std.specs.Prelude.{◌≡◌, length};
ghost use Rattle.tables.specs.View.{arena_of};
ghost use Rattle.sizes.specs.Sizes.{pool_width};
ghost use Rattle.arena.specs.Arena.{head_link, given, allocated, held_b, answer_to, freed, new_arena};

use refusals::Refusal;
use tables::Handle;

// ---- Allocating and freeing

// The link of the slot that is given next; 0 where none is free.
fn head_link(p: &[u64], n: usize) -> u64
    requires { length p.now ≡ pool_width n }
    ensures { result ≡ head_link (arena_of n p.now) }
{
    if words::size(p, 1) < n {
        arena::link(p, n, words::size(p, 0))
    } else {
        0
    }
}

// Takes the slot at the head of the free list.
pub fn allocate(p: &mut [u64], n: usize) -> Option<Handle>
    requires { length p.old ≡ pool_width n }
    ensures value { result ≡ given (arena_of n p.old) }
    ensures p_after { arena_of n p.new ≡ allocated (arena_of n p.old) }
{
    let link = head_link(p, n);
    if 0 < link {
        let slot = words::word(p, 0);
        let count = words::word(p, 1);
        let i = slot as usize;
        let generation = arena::generation(p, n, i);
        arena::set_link(p, n, i, 0);
        arena::set_top(p, n, link - 1, count + 1);
        return Some(Handle { slot, generation });
    }
    None
}

// Whether slot i is in use, and the head and the count are such that it can be freed.
fn is_held(p: &[u64], n: usize, i: usize) -> bool
    requires { length p.now ≡ pool_width n }
    ensures { result ≡ held_b (arena_of n p.now) i }
{
    let head = words::size(p, 0);
    let count = words::size(p, 1);
    let used = arena::link(p, n, i) == 0;
    i < n && (head < n && (0 < count && used))
}

// Puts slot i at the front of the free list, with the next generation.
pub fn free(p: &mut [u64], n: usize, i: usize) -> Result<(), Refusal>
    requires { length p.old ≡ pool_width n }
    ensures value { result ≡ answer_to (arena_of n p.old) i }
    ensures p_after { arena_of n p.new ≡ freed (arena_of n p.old) i }
{
    if is_held(p, n, i) {
        let generation = arena::generation(p, n, i);
        if generation < u64::MAX {
            let head = words::word(p, 0);
            let count = words::word(p, 1);
            arena::set_link(p, n, i, head + 1);
            arena::set_generation(p, n, i, generation + 1);
            arena::set_top(p, n, i as u64, count - 1);
            return Ok(());
        }
        return Err(Refusal::Spent);
    }
    Err(Refusal::Memory)
}

// ---- Making

// Every slot free, in the order 0, 1, 2, at generation 0, as `FreeList::new` and `GenArena::new` have it.
pub fn fresh(p: &mut [u64], n: usize)
    requires { length p.old ≡ pool_width n }
    ensures { arena_of n p.new ≡ new_arena n }
{
    arena::set_top(p, n, 0, 0);
    for i in 0..n {
        let next = (i + 1) % n;
        arena::set_link(p, n, i, (next + 1) as u64);
        arena::set_generation(p, n, i, 0);
    }
}
