//! What discovery does: every enclave learns the way to the name server, is admitted there, and answers over the tree.
//!
//! Each law is the contract of a function that does nothing, which a crate above calls to have it.
#![tactic(auto)]

mod laws;

pub use laws::{records_come_once, rest_is_admitted, ways_come_once, ways_lead};
