// The refusals (document 01, "Memory and who can be refused"), under document 01's names and with its numbers.

#![tactic(auto)]

ghost use Rattle.std.specs.Prelude.{◌≡◌};
ghost use Rattle.refusals.specs.Refusals.{number, all};

#[derive(Clone, Copy, Debug, PartialEq, Eq)]
pub enum Refusal {
    Memory = 1,
    Sizes = 2,
    NoDomain = 3,
    NoSlot = 4,
    WrongKind = 5,
    Stale = 6,
    BadRange = 7,
    Beyond = 8,
    Root = 9,
    NotCarried = 10,
    NoRegion = 11,
    NoLocal = 12,
    NoTracker = 13,
    RingFull = 14,
    NoDomainRoom = 15,
    Spent = 16,
    BadRecord = 17,
    BadFlag = 18,
    NoHash = 19,
    NotAllowed = 20,
    Frozen = 21,
    HoldsRoot = 22,
    Running = 23,
}

impl Refusal {
    // All of them, in the order of their numbers. The contract ties each to the specification's name.
    pub fn all() -> [Refusal; 23]
        ensures { result ≡ all }
    {
        [
            Refusal::Memory,
            Refusal::Sizes,
            Refusal::NoDomain,
            Refusal::NoSlot,
            Refusal::WrongKind,
            Refusal::Stale,
            Refusal::BadRange,
            Refusal::Beyond,
            Refusal::Root,
            Refusal::NotCarried,
            Refusal::NoRegion,
            Refusal::NoLocal,
            Refusal::NoTracker,
            Refusal::RingFull,
            Refusal::NoDomainRoom,
            Refusal::Spent,
            Refusal::BadRecord,
            Refusal::BadFlag,
            Refusal::NoHash,
            Refusal::NotAllowed,
            Refusal::Frozen,
            Refusal::HoldsRoot,
            Refusal::Running,
        ]
    }
}

// "A refusal gives its number and nothing else."
impl From<Refusal> for u64 {
    ghost from_gives = { λ r n. n ≡ number r };

    fn from(r: Refusal) -> u64 {
        r as u64
    }
}
