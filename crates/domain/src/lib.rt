// A domain (domain.rs): what it gains and loses.

#![tactic(auto)]

pub mod activate;

pub use activate::{activate_region, cleanup, deactivate_region, insert, reserve};
