// The test of lent tables, its part about the ring of updates (document 01, **Sound**). Updates are numbered from the read place on, going round.

#![tactic(auto)]

ghost use Rattle.std.specs.Prelude.{◌≡◌, ◌+◌, ◌<◌, ◌≤◌};
ghost use Rattle.tables.specs.View.{view, Sized};
ghost use Rattle.sound_queue.specs.Ring.{numbered, mark_numbered, numbers_hold, none_same, singly, queue_holds};

use tables::Update;

// Update number j of n places.
#[tactic(auto, unfolding(crate::specs::Ring::numbered))]
fn update_numbered(t: &[u64], n: usize, read: usize, j: usize) -> Update
    requires sized { Sized t.now }
    requires n_nonzero { 0 < n }
    requires j_bound { read + j ≤ 65536 }
    ensures { result ≡ numbered (view t.now) n read j }
{
    rows::load::<Update>(t, (read + j) % n)
}

// The marks beside it.
#[tactic(auto, unfolding(crate::specs::Ring::mark_numbered))]
fn marks_numbered(t: &[u64], n: usize, read: usize, j: usize) -> u64
    requires sized { Sized t.now }
    requires n_nonzero { 0 < n }
    requires j_bound { read + j ≤ 65536 }
    ensures { result ≡ mark_numbered (view t.now) n read j }
{
    rows::load_mark(t, (read + j) % n)
}

// Whether the first m updates hold, and the other places are clear.
fn numbers_hold(t: &[u64], n: usize, read: usize, m: usize) -> bool
    requires sized { Sized t.now }
    requires n_bound { read + n ≤ 65536 }
    ensures { result ≡ numbers_hold (view t.now) n read m }
{
    (0..n).all(|j| {
        let u = update_numbered(t, n, read, j);
        let marks = marks_numbered(t, n, read, j);
        sound_updates::update_fits(t, u, j < m) && sound_updates::marks_fit(u, marks)
    })
}

// Whether no update from number `from` up to number m is of the same domain as u. Where u is of none, nothing is read: clean-ups would be
// compared each with each.
fn none_same(t: &[u64], n: usize, read: usize, m: usize, u: Update, from: usize) -> bool
    requires sized { Sized t.now }
    requires n_nonzero { 0 < n }
    requires m_bound { read + m ≤ 65536 }
    ensures { result ≡ none_same (view t.now) n read m u from }
{
    u.kind != Update::PERMISSION
        || (from..m).all(|i| !sound_updates::is_same(u, update_numbered(t, n, read, i)))
}

// Whether no domain of the first m updates is queued again further on.
fn is_singly(t: &[u64], n: usize, read: usize, m: usize) -> bool
    requires sized { Sized t.now }
    requires n_nonzero { 0 < n }
    requires m_bound { read + m ≤ 65536 }
    ensures { result ≡ singly (view t.now) n read m }
{
    (0..m).all(|j| {
        let u = update_numbered(t, n, read, j);
        none_same(t, n, read, m, u, j + 1)
    })
}

pub fn queue_holds(t: &[u64]) -> bool
    requires { Sized t.now }
    ensures { result ≡ queue_holds (view t.now) }
{
    let n = words::size(t, sizes::UPDATES) + 1;
    let read = rows::read_place(t) as usize;
    let write = rows::write_place(t) as usize;
    if n <= read || n <= write {
        return false;
    }
    let m = (write + n - read) % n;
    numbers_hold(t, n, read, m) && is_singly(t, n, read, m)
}
