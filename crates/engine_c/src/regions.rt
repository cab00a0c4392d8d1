// Regions: roots, aliases and carves; the value is the local slot.
ghost use Rattle.model.specs.Perform.{Call, Step};
ghost use Rattle.call.specs.Arguments.{handle, access};
ghost use Rattle.replies.specs.Replies.{reply_of, Returns};
ghost use Rattle.promise.specs.Calls.{Words, Exported, create-root-region, alias-region, carve-region};

use replies::Reply;

#[unsafe(no_mangle)]
pub extern "C" fn mityvurno_create_root_region(
    t: &mut [u64],
    w: &mut [u64],
    domain: u64,
    generation: u64,
    start: u64,
    end: u64,
    rights: u8,
) -> Reply
    ensures returns { Returns reply_of t.old w.old (Call.Do (Step.Root (handle domain generation) (access start end rights))) result t.new w.new }
    ensures words { Words (create-root-region domain generation start end rights result) × Exported t.old w.old (create-root-region domain generation start end rights result) t.new w.new }
{
    engine::regions::mityvurno_create_root_region(t, w, domain, generation, start, end, rights)
}

#[unsafe(no_mangle)]
pub extern "C" fn mityvurno_alias_region(
    t: &mut [u64],
    w: &mut [u64],
    domain: u64,
    generation: u64,
    local: u64,
    start: u64,
    end: u64,
    rights: u8,
) -> Reply
    ensures returns { Returns reply_of t.old w.old (Call.Do (Step.Alias (handle domain generation) local (access start end rights))) result t.new w.new }
    ensures words { Words (alias-region domain generation local start end rights result) × Exported t.old w.old (alias-region domain generation local start end rights result) t.new w.new }
{
    engine::regions::mityvurno_alias_region(t, w, domain, generation, local, start, end, rights)
}

#[unsafe(no_mangle)]
pub extern "C" fn mityvurno_carve_region(
    t: &mut [u64],
    w: &mut [u64],
    domain: u64,
    generation: u64,
    local: u64,
    start: u64,
    end: u64,
    rights: u8,
) -> Reply
    ensures returns { Returns reply_of t.old w.old (Call.Do (Step.Carve (handle domain generation) local (access start end rights))) result t.new w.new }
    ensures words { Words (carve-region domain generation local start end rights result) × Exported t.old w.old (carve-region domain generation local start end rights result) t.new w.new }
{
    engine::regions::mityvurno_carve_region(t, w, domain, generation, local, start, end, rights)
}
