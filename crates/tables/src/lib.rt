// The engine's tables in lent words: the records, which crates of their own load and store by their numbers.
// docs/TABLES.md has the layout; a record that is not there is all zero, and is not stored. That words are as many as their header asks (`Sized`) is asked
// at each call and held by no type: a struct with the caller's `&mut` owes in each contract that it keeps the borrow.

#![tactic(auto)]

pub mod links;
pub mod rows;

pub use links::{link_to, slot_to};

#[derive(Clone, Copy, PartialEq, Eq, Default)]
pub struct Handle {
    pub slot: u64,
    pub generation: u64,
}

// A slot of a domain's list. A free one has the free slot after it as its handle's slot. A kind, here and below, is a word and no enum: the tables may
// hold any word, and what is loaded is stored back as it was.
#[derive(Clone, Copy, PartialEq, Eq, Default)]
pub struct Slot {
    pub kind: u64,
    pub handle: Handle,
}

impl Slot {
    pub const NONE: u64 = 0;

    pub const FREE: u64 = 1;

    pub const REGION: u64 = 2;

    pub const REGION_REVOKE: u64 = 3;

    pub const MANAGEMENT: u64 = 4;

    pub const CHANNEL: u64 = 5;
}

// A domain but for its slots: links to its manager and its first tracker record, and its list's head and count.
#[derive(Clone, Copy, PartialEq, Eq, Default)]
pub struct DomainHead {
    pub manager: u64,
    pub cores: u64,
    pub tracker: u64,
    pub head: u64,
    pub count: u64,
}

impl DomainHead {
    // Where the list's head and count stand among its words.
    pub const HEAD: usize = 3;

    pub const COUNT: usize = 4;
}

// A region; owner, parent, first child and next sibling are links.
#[derive(Clone, Copy, PartialEq, Eq, Default)]
pub struct RegionCapa {
    pub kind: u64,
    pub owner: u64,
    pub parent: u64,
    pub start: u64,
    pub end: u64,
    pub rights: u64,
    pub child: u64,
    pub next: u64,
}

impl RegionCapa {
    pub const ROOT: u64 = 1;

    pub const ALIAS: u64 = 2;

    pub const CARVE: u64 = 3;
}

// A tracker record.
#[derive(Clone, Copy, PartialEq, Eq, Default)]
pub struct Region {
    pub start: u64,
    pub end: u64,
    pub ref_count: u64,
    pub read_count: u64,
    pub write_count: u64,
    pub exec_count: u64,
    pub super_count: u64,
    pub uncache_count: u64,
    pub next: u64,
}

// A place of the ring.
#[derive(Clone, Copy, PartialEq, Eq, Default)]
pub struct Update {
    pub kind: u64,
    pub a: u64,
    pub b: u64,
    pub c: u64,
}

impl Update {
    pub const NOTHING: u64 = 0;

    pub const PERMISSION: u64 = 1;

    pub const CLEANUP: u64 = 2;
}

// The 32 bytes of a hash, byte 0 lowest in the first word.
#[derive(Clone, Copy, PartialEq, Eq, Default)]
pub struct Hash {
    pub word0: u64,
    pub word1: u64,
    pub word2: u64,
    pub word3: u64,
}

// What is stored of a region's hash: whether one was given, 1 or 0, and its words.
#[derive(Clone, Copy, PartialEq, Eq, Default)]
pub struct RegionHash {
    pub given: u64,
    pub word0: u64,
    pub word1: u64,
    pub word2: u64,
    pub word3: u64,
}

// What a domain may do (document 02, request 2): a word of the bits below, of which any other may be set too, and whether
// it is frozen, 1 or 0.
#[derive(Clone, Copy, PartialEq, Eq, Default)]
pub struct Interface {
    pub word: u64,
    pub frozen: u64,
}

impl Interface {
    pub const SEND: u64 = 2;

    pub const ALIAS: u64 = 8;

    pub const CARVE: u64 = 16;

    // The word that a domain opens with: all three.
    pub const OPEN: u64 = Interface::SEND + Interface::ALIAS + Interface::CARVE;
}
