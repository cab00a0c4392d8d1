// The tracker (region.rs; document 01, **Tracker**): a domain's records, linked in rising order.
// A link is a record's slot + 1, or 0 for none; the record before the first one is the domain itself, link 0.
// Here are what a turn of a walk comes to, and the turns that leave the counts as they are; those that give or take counts are crates `gain_turns`' and
// `loss_turns`'. Where a walk is, is crate `walk_cursors`'; the walks are crate `tracker`'s.

#![tactic(auto)]

pub mod turns;

use rights::Rights;

// A range with rights (`AccessRights` of the source).
#[derive(Clone, Copy)]
pub struct AccessRights {
    pub start: u64,
    pub end: u64,
    pub ops: Rights,
}

// What a walk does. An enum and no closure: the definitions of the walks take it as a value.
#[derive(Clone, Copy)]
pub enum Way {
    Add,
    Remove,
    Merge,
}
