// The rights word (document 01, "The call, from the entry down"): eight flags in eight bits, and their tests.

#![tactic(auto)]

ghost use Rattle.std.specs.Prelude.{◌≡◌};
ghost use Rattle.rights.specs.Rights.{union, contains, allowed};
ghost use Rattle.rights.specs.Counters.{intersects, one_if, counters_of};

#[derive(Clone, Copy)]
pub struct Rights(pub u8);

// The right counts and the uncacheable count of a record that a gain makes (document 01, **Tracker**): each is 0 or 1.
#[derive(Clone, Copy)]
pub struct Counters {
    pub read_count: u64,
    pub write_count: u64,
    pub exec_count: u64,
    pub super_count: u64,
    pub uncache_count: u64,
}

impl Rights {
    pub const NONE: Rights = Rights(0);

    pub const READ: Rights = Rights(1);

    pub const WRITE: Rights = Rights(2);

    pub const EXEC: Rights = Rights(4);

    pub const SUPER: Rights = Rights(8);

    pub const HASH: Rights = Rights(16);

    pub const CLEANUP: Rights = Rights(32);

    pub const VITAL: Rights = Rights(64);

    pub const UNCACHEABLE: Rights = Rights(128);

    // The flags in either word.
    pub fn union(self, other: Rights) -> Rights
        ensures { result.0 ≡ union self.0 other.0 }
    {
        Rights(self.0 | other.0)
    }

    // Are all flags of `other` in this word?
    pub fn contains(self, other: Rights) -> bool
        ensures { result ≡ contains self.0 other.0 }
    {
        self.0 & other.0 == other.0
    }

    // Is there a flag in both words?
    pub fn intersects(self, other: Rights) -> bool
        ensures { result ≡ intersects self.0 other.0 }
    {
        self.0 & other.0 != Rights::NONE.0
    }

    // 1 if this word contains the flag, else 0.
    fn count(self, flag: Rights) -> u64
        ensures { result ≡ one_if (contains self.0 flag.0) }
    {
        if self.contains(flag) { 1 } else { 0 }
    }

    // The counts of a record that a gain with these rights makes (**Tracker**).
    pub fn counters(self) -> Counters
        ensures { result ≡ counters_of self.0 }
    {
        Counters {
            read_count: self.count(Rights::READ),
            write_count: self.count(Rights::WRITE),
            exec_count: self.count(Rights::EXEC),
            super_count: self.count(Rights::SUPER),
            uncache_count: self.count(Rights::UNCACHEABLE),
        }
    }

    // May a child of a region with these rights have the rights `child` (**Alias**)?
    pub fn allows(self, child: Rights) -> bool
        ensures { result ≡ allowed self.0 child.0 }
    {
        let most = self
            .union(Rights::HASH)
            .union(Rights::CLEANUP)
            .union(Rights::VITAL);
        most.contains(child)
    }
}
