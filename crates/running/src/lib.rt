// A script's records, run as calls (document 01, "The script program").

#![tactic(auto)]

mod perform;
pub mod scripts;

pub use scripts::{run_script, take};
