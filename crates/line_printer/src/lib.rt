//! The text of journal lines: one spelling of each.
#![tactic(auto)]

mod item;
mod names;
mod print;
mod print_command;
mod print_record;
mod row;

pub use print::print_line;
pub use row::{digits, text};
