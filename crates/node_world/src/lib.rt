//! The world of a scenario: its enclaves, the channels between them, and the journal of what they did.
//!
//! Each enclave decides from its own state and the bytes that reached it. The world gives commands to the enclaves that
//! they name, carries bytes, and writes the journal.
#![tactic(auto)]

mod count;
mod laws;
mod world;

pub use world::{Progress, Which, World, WorldFault};
