// The exported calls (crate engine) under the names that C and Rust link, include/mityvurno.h, as a static library. A library exports no symbols, so
// each function here only calls the one of engine that has its name, and promises what that one does; no contract here has a precondition either.

#![tactic(auto)]

pub mod capas;
pub mod convert;
pub mod domains;
pub mod make;
pub mod queue;
pub mod read;
pub mod regions;
pub mod version;
