// What the sweep of a tracker's records goes by: sums of what pieces count for, and a cursor in a run of sorted events.

#![tactic(auto)]

pub mod counts;
pub mod events;

// What pieces count for: how many they are, and how many of them have each right.
#[derive(Clone, Copy, Default)]
pub struct Sums {
    pub ref_count: u64,
    pub read_count: u64,
    pub write_count: u64,
    pub exec_count: u64,
    pub super_count: u64,
}

// How many events of a run were passed, and what these count for.
#[derive(Clone, Copy)]
pub struct Cursor {
    pub place: usize,
    pub sums: Sums,
}
