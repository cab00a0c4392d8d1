// A domain's capabilities (domain.rs; document 01, **Sweep**): its slot list is read out of the tables, changed and put back as one record.

#![tactic(auto)]

pub mod capas;

pub use capas::{capa_at, empty_capa, has_capacity_for, insert_capa, remove_capa};
