//! The machine: nodes and the channels between them. It carries bytes and looks into no enclave, and it knows no facts.
#![tactic(auto)]

mod channels;
mod delivery;
mod laws;
mod machine;
mod pair;

pub use laws::hops_are_pairs;
pub use machine::Machine;
pub use pair::{Hop, Pair};
