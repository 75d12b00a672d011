//! A scenario from bytes to the journal.
#![tactic(auto)]

mod execute;
mod laws;
mod main_call;
mod place;
mod print;
mod run;
mod status;

pub use main_call::xemem_main;
pub use node_world::Which;
pub use scenario_text::SyntaxFault;
pub use status::{Status, exit_number, status_text};
