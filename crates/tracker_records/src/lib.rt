// The tracker's records (region.rs; document 01, **Tracker**): the links from one to the next. A record's counts are
// crate `counts`'s.

#![tactic(auto)]

pub mod links;
