//! The rules of an enclave: what it writes for a record, a call or a birth is a function of its view, and so is what a line of
//! its own changes in it.
//!
//! The definitions stand in `specs/`. Each law is the contract of a function with an empty body, which a crate above calls to
//! have it.
#![tactic(auto)]

mod laws;

pub use laws::calls_write_own_lines;
