//! Lines, words and numbers out of a text.
#![tactic(auto)]

mod laws;
mod number;
mod split;

pub use laws::{numbers_are_read_back, spellings_are_words};
pub use number::number_of;
pub use split::{first_line, words};
