//! The line that a text of a journal spells, if any.
#![tactic(auto)]

mod choices;
mod commanded;
mod cursor;
mod fixed_lines;
mod laws;
mod line;
mod lists;
mod name_tables;
mod records;
mod values;

pub use laws::{lines_are_read_back, lines_are_words};
pub use line::read_line;
