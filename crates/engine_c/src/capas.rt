// Capabilities sent and revoked.
ghost use Rattle.model.specs.State.{no_options};
ghost use Rattle.model.specs.Perform.{Call, Step};
ghost use Rattle.call.specs.Arguments.{handle, hash_in, with_flags, with_hash};
ghost use Rattle.replies.specs.Replies.{reply_of, Returns};
ghost use Rattle.promise.specs.Calls.{Words, Exported, send, send-with-flags, send-with-hash, revoke, create-revoke-capa};

use replies::Reply;

// Without a flag word and a hash. The value is the slot in the list of the domain that the target names.
#[unsafe(no_mangle)]
pub extern "C" fn mityvurno_send(
    t: &mut [u64],
    w: &mut [u64],
    domain: u64,
    generation: u64,
    local: u64,
    target: u64,
) -> Reply
    ensures returns { Returns reply_of t.old w.old (Call.Do (Step.Send (handle domain generation) local target no_options)) result t.new w.new }
    ensures words { Words (send domain generation local target result) × Exported t.old w.old (send domain generation local target result) t.new w.new }
{
    engine::capas::mityvurno_send(t, w, domain, generation, local, target)
}

// With a flag word and no hash: the flags join the rights of a region that is sent, and its stored hash is cleared.
#[unsafe(no_mangle)]
pub extern "C" fn mityvurno_send_with_flags(
    t: &mut [u64],
    w: &mut [u64],
    domain: u64,
    generation: u64,
    local: u64,
    target: u64,
    flags: u8,
) -> Reply
    ensures returns { Returns reply_of t.old w.old (Call.Do (Step.Send (handle domain generation) local target (with_flags flags))) result t.new w.new }
    ensures words { Words (send-with-flags domain generation local target flags result) × Exported t.old w.old (send-with-flags domain generation local target flags result) t.new w.new }
{
    engine::capas::mityvurno_send_with_flags(t, w, domain, generation, local, target, flags)
}

// With a flag word and a hash, which is stored of a region that is sent.
#[unsafe(no_mangle)]
pub extern "C" fn mityvurno_send_with_hash(
    t: &mut [u64],
    w: &mut [u64],
    domain: u64,
    generation: u64,
    local: u64,
    target: u64,
    flags: u8,
    hash: &[u8; 32],
) -> Reply
    ensures returns { Returns reply_of t.old w.old (Call.Do (Step.Send (handle domain generation) local target (with_hash flags (hash_in hash.now)))) result t.new w.new }
    ensures words { Words (send-with-hash domain generation local target flags (hash_in hash.now) result) × Exported t.old w.old (send-with-hash domain generation local target flags (hash_in hash.now) result) t.new w.new }
{
    engine::capas::mityvurno_send_with_hash(t, w, domain, generation, local, target, flags, hash)
}

#[unsafe(no_mangle)]
pub extern "C" fn mityvurno_revoke(
    t: &mut [u64],
    w: &mut [u64],
    domain: u64,
    generation: u64,
    local: u64,
) -> Reply
    ensures returns { Returns reply_of t.old w.old (Call.Do (Step.Revoke (handle domain generation) local)) result t.new w.new }
    ensures words { Words (revoke domain generation local result) × Exported t.old w.old (revoke domain generation local result) t.new w.new }
{
    engine::capas::mityvurno_revoke(t, w, domain, generation, local)
}

// The value is the local slot of the RegionRevoke.
#[unsafe(no_mangle)]
pub extern "C" fn mityvurno_create_revoke_capa(
    t: &mut [u64],
    w: &mut [u64],
    domain: u64,
    generation: u64,
    local: u64,
) -> Reply
    ensures returns { Returns reply_of t.old w.old (Call.Do (Step.CreateRevokeCapa (handle domain generation) local)) result t.new w.new }
    ensures words { Words (create-revoke-capa domain generation local result) × Exported t.old w.old (create-revoke-capa domain generation local result) t.new w.new }
{
    engine::capas::mityvurno_create_revoke_capa(t, w, domain, generation, local)
}
