// The readings (document 01, **Reading**). The tables are lent to be read only.
ghost use Rattle.model.specs.Perform.{Call, Reading};
ghost use Rattle.call.specs.Arguments.{handle};
ghost use Rattle.replies.specs.Replies.{reply_of, Returns, ListsPermissions, ListsHolders};
ghost use Rattle.promise.specs.Calls.{Words, Exported, get-refcount, core-map, permissions, holders};

use readings::Permission;
use replies::Reply;

#[unsafe(no_mangle)]
pub extern "C" fn mityvurno_get_refcount(
    t: &[u64],
    w: &mut [u64],
    domain: u64,
    generation: u64,
    start: u64,
    end: u64,
) -> Reply
    ensures returns { Returns reply_of t.now w.old (Call.Read (Reading.Refcount (handle domain generation) start end)) result t.now w.new }
    ensures words { Words (get-refcount domain generation start end result) × Exported t.now w.old (get-refcount domain generation start end result) t.now w.new }
{
    engine::read::mityvurno_get_refcount(t, w, domain, generation, start, end)
}

#[unsafe(no_mangle)]
pub extern "C" fn mityvurno_core_map(
    t: &[u64],
    w: &mut [u64],
    domain: u64,
    generation: u64,
) -> Reply
    ensures returns { Returns reply_of t.now w.old (Call.Read (Reading.CoreMap (handle domain generation))) result t.now w.new }
    ensures words { Words (core-map domain generation result) × Exported t.now w.old (core-map domain generation result) t.now w.new }
{
    engine::read::mityvurno_core_map(t, w, domain, generation)
}

// The domain's permission list; the value is the number of its records.
#[unsafe(no_mangle)]
pub extern "C" fn mityvurno_permissions(
    t: &[u64],
    w: &mut [u64],
    domain: u64,
    generation: u64,
    run: &mut [Permission],
) -> Reply
    ensures lists_permissions { ListsPermissions t.now w.old (handle domain generation) run.old result w.new run.new }
    ensures words { Words (permissions domain generation run.old result run.new) × Exported t.now w.old (permissions domain generation run.old result run.new) t.now w.new }
{
    engine::read::mityvurno_permissions(t, w, domain, generation, run)
}

// The slots of the domains with reach above 0 at the address; the value is their number.
#[unsafe(no_mangle)]
pub extern "C" fn mityvurno_holders(
    t: &[u64],
    w: &mut [u64],
    address: u64,
    run: &mut [u64],
) -> Reply
    ensures lists_holders { ListsHolders t.now w.old address run.old result w.new run.new }
    ensures words { Words (holders address run.old result run.new) × Exported t.now w.old (holders address run.old result run.new) t.now w.new }
{
    engine::read::mityvurno_holders(t, w, address, run)
}
