//! The texts of scenarios and journals: one reading of each line, one spelling of each journal line. This crate gives the
//! readers and the printer under one name.
#![tactic(auto)]

mod laws;

pub use command_reader::{
    SyntaxFault, commands_are_read_back, commands_are_words, place_ok, read_command,
    scenarios_are_placed,
};
pub use laws::{journals_are_read_back, journals_are_split_again};
pub use line_printer::{digits, print_line, text};
pub use line_reader::{lines_are_read_back, lines_are_words, read_line};
pub use text_words::first_line;
