// Steps on a domain's tracker: a range gained and lost, and the readings of its records.
ghost use Rattle.std.specs.Prelude.{◌≡◌, ◌+◌, ◌≤◌, length, set};
ghost use Rattle.tables.specs.View.{view, Sized};
ghost use Rattle.tracker.specs.Walks.{add_region, remove_region};
ghost use Rattle.readings.specs.Readings.{records_of, largest_reach, permission_list, fill_run};
ghost use Rattle.bench.specs.Steps.{reply, left};
ghost use Rattle.bench.specs.Trackers.{change_of, access_of, words_of, filled};

use crate::NOTHING;
use answers::Answer;
use readings::Permission;
use region::AccessRights;
use rights::Rights;

// 1 where a count left or came to 0, else 0; `NOTHING` for a refusal.
fn change(x: Answer) -> u64
    ensures { result ≡ change_of x }
{
    match x {
        Ok(v) => v,
        Err(r) => NOTHING,
    }
}

// ---- A range with rights

#[unsafe(no_mangle)]
pub extern "C" fn bench_gain(t: &mut [u64], d: usize, start: u64, end: u64, rights: u8) -> u64
    ensures { (result ≡ reply t.old (change_of (add_region d (access_of start end rights) (view t.old)).answer))
        × (t.new ≡ left t.old (add_region d (access_of start end rights) (view t.old)).tables) }
{
    if sizes::is_sized(t) {
        let ops = Rights(rights);
        return change(tracker::add_region(t, d, AccessRights { start, end, ops }));
    }
    NOTHING
}

#[unsafe(no_mangle)]
pub extern "C" fn bench_loss(t: &mut [u64], d: usize, start: u64, end: u64, rights: u8) -> u64
    ensures { (result ≡ reply t.old (change_of (remove_region d (access_of start end rights) (view t.old)).answer))
        × (t.new ≡ left t.old (remove_region d (access_of start end rights) (view t.old)).tables) }
{
    if sizes::is_sized(t) {
        let ops = Rights(rights);
        return change(tracker::remove_region(t, d, AccessRights { start, end, ops }));
    }
    NOTHING
}

// ---- Readings

#[unsafe(no_mangle)]
pub extern "C" fn bench_refcount(t: &[u64], d: usize, start: u64, end: u64) -> u64
    ensures { result ≡ reply t.now (largest_reach start end (records_of (view t.now) d)) }
{
    if sizes::is_sized(t) {
        return readings::get_refcount(t, d, start, end);
    }
    NOTHING
}

// Three words at place i of a run.
fn put_permission(run: &mut [u64], i: usize, p: Permission)
    requires { i ≤ 3072 }
    ensures { run.new ≡ set (set (set run.old i p.start) (i + 1) p.end) (i + 2) p.rights }
{
    words::put(run, i, p.start);
    words::put(run, i + 1, p.end);
    words::put(run, i + 2, p.rights);
}

// As the exported `mityvurno_permissions` does it. No table has more than 1,024 records.
fn list(t: &[u64], d: usize, run: &mut [u64]) -> u64
    requires { Sized t.now }
    ensures { (result ≡ length (permission_list (view t.now) d)) × (run.new ≡ fill_run (words_of (permission_list (view t.now) d)) run.old) }
{
    let p = readings::plan_of(t, d, 1024);
    let mut at = p.at;
    for k in 0..p.turns {
        let f = readings::found_at(t, at);
        put_permission(run, 3 * k, f.p);
        at = f.next;
    }
    p.answer
}

// A function that takes a run of `Permission` is proved by hand alone, so the list goes into words.
#[unsafe(no_mangle)]
pub extern "C" fn bench_permissions(t: &[u64], d: usize, run: &mut [u64]) -> u64
    ensures { (result ≡ reply t.now (length (permission_list (view t.now) d)))
        × (run.new ≡ filled t.now (words_of (permission_list (view t.now) d)) run.old) }
{
    if sizes::is_sized(t) {
        return list(t, d, run);
    }
    NOTHING
}
