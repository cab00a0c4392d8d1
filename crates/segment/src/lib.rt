// Regions made, freed and sent (segment.rs; document 01, **Alias** to **Revoke**).

#![tactic(auto)]

pub mod regions;
pub mod send;

pub use regions::{access, capa_for, free_region, new_region};
pub use send::send_region;
