//! An enclave of the machine.
#![tactic(auto)]

mod births;
mod children;
mod feeds;
mod frames;
mod host;
mod lists;
mod memory;
mod node;
mod sides;
mod spaces;
mod state;

pub use node::{Node, NodeFault};
pub use xemem_language::{Call, Show};
