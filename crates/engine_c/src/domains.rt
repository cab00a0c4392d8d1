// Domains, channels, core maps and interfaces.
ghost use Rattle.std.proofs.Math.Option.{none, some};
ghost use Rattle.model.specs.Perform.{Call, Step};
ghost use Rattle.call.specs.Arguments.{handle};
ghost use Rattle.replies.specs.Replies.{reply_of, domain_reply_of, Returns};
ghost use Rattle.promise.specs.Calls.{Words, Exported, open-domain, open-under, open-channel, set-core-map, set-interface, freeze-interface};

use replies::{DomainReply, Reply};

// A domain without a manager.
#[unsafe(no_mangle)]
pub extern "C" fn mityvurno_open_domain(t: &mut [u64], w: &mut [u64], cores: u64) -> DomainReply
    ensures returns { Returns domain_reply_of t.old w.old (Call.Do (Step.Open none cores)) result t.new w.new }
    ensures words { Words (open-domain cores result) × Exported t.old w.old (open-domain cores result) t.new w.new }
{
    engine::domains::mityvurno_open_domain(t, w, cores)
}

// A domain whose manager gets a Management capability.
#[unsafe(no_mangle)]
pub extern "C" fn mityvurno_open_under(
    t: &mut [u64],
    w: &mut [u64],
    manager: u64,
    generation: u64,
    cores: u64,
) -> DomainReply
    ensures returns { Returns domain_reply_of t.old w.old (Call.Do (Step.Open (some (handle manager generation)) cores)) result t.new w.new }
    ensures words { Words (open-under manager generation cores result) × Exported t.old w.old (open-under manager generation cores result) t.new w.new }
{
    engine::domains::mityvurno_open_under(t, w, manager, generation, cores)
}

// A Channel capability to a domain in another's list, or in its own; the value is its local slot.
#[unsafe(no_mangle)]
pub extern "C" fn mityvurno_open_channel(
    t: &mut [u64],
    w: &mut [u64],
    domain: u64,
    generation: u64,
    to: u64,
    to_generation: u64,
) -> Reply
    ensures returns { Returns reply_of t.old w.old (Call.Do (Step.Channel (handle domain generation) (handle to to_generation))) result t.new w.new }
    ensures words { Words (open-channel domain generation to to_generation result) × Exported t.old w.old (open-channel domain generation to to_generation result) t.new w.new }
{
    engine::domains::mityvurno_open_channel(t, w, domain, generation, to, to_generation)
}

#[unsafe(no_mangle)]
pub extern "C" fn mityvurno_set_core_map(
    t: &mut [u64],
    w: &mut [u64],
    domain: u64,
    generation: u64,
    cores: u64,
) -> Reply
    ensures returns { Returns reply_of t.old w.old (Call.Do (Step.SetCoreMap (handle domain generation) cores)) result t.new w.new }
    ensures words { Words (set-core-map domain generation cores result) × Exported t.old w.old (set-core-map domain generation cores result) t.new w.new }
{
    engine::domains::mityvurno_set_core_map(t, w, domain, generation, cores)
}

// The word of the domain's interface, in place of the one that stands.
#[unsafe(no_mangle)]
pub extern "C" fn mityvurno_set_interface(
    t: &mut [u64],
    w: &mut [u64],
    domain: u64,
    generation: u64,
    word: u64,
) -> Reply
    ensures returns { Returns reply_of t.old w.old (Call.Do (Step.SetInterface (handle domain generation) word)) result t.new w.new }
    ensures words { Words (set-interface domain generation word result) × Exported t.old w.old (set-interface domain generation word result) t.new w.new }
{
    engine::domains::mityvurno_set_interface(t, w, domain, generation, word)
}

// The word stays as it is from now on.
#[unsafe(no_mangle)]
pub extern "C" fn mityvurno_freeze_interface(
    t: &mut [u64],
    w: &mut [u64],
    domain: u64,
    generation: u64,
) -> Reply
    ensures returns { Returns reply_of t.old w.old (Call.Do (Step.FreezeInterface (handle domain generation))) result t.new w.new }
    ensures words { Words (freeze-interface domain generation result) × Exported t.old w.old (freeze-interface domain generation result) t.new w.new }
{
    engine::domains::mityvurno_freeze_interface(t, w, domain, generation)
}
