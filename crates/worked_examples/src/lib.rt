//! Worked scenarios, by which the definitions of texts and rules are compared with what was wanted of them.
#![tactic(auto)]

mod examples;

pub use examples::{
    crowds_are_refused, makes_have_their_places, needless_names_are_dropped,
    needless_records_are_dropped, worked_examples,
};
