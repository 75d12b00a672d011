//! The commands of a scenario: what each line says, or what is wrong with it.
#![tactic(auto)]

mod fault;
mod forms;
mod laws;
mod place;
mod read;
mod slots;

pub use fault::SyntaxFault;
pub use laws::{commands_are_read_back, commands_are_words, scenarios_are_placed};
pub use place::place_ok;
pub use read::{command, read_command};
