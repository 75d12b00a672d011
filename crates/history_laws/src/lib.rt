//! What a lawful history is, and that every journal is one.
//!
//! Each law is the contract of a function that does nothing, which a crate above calls to have it.
#![tactic(auto)]

mod laws;

pub use laws::{
    fronts_are_histories, journals_are_histories, journals_are_legal, journals_are_spelled,
    journals_fit, one_journal, pasts_are_counted, told_are_histories, ways_are_heard,
};
