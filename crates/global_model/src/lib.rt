//! The facts of the machine after a journal, the line that is due, and what holds of channels.
//!
//! Each law is the contract of a function that does nothing, which a crate above calls to have it. The types, functions and
//! definitions of the language and of the rules of an enclave are given again.
#![tactic(auto)]

mod laws;

pub use enclave_rules::calls_write_own_lines;
pub use laws::{
    acts_are_plain, decoders_follow, journals_are_apt, journals_are_carried, journals_are_in_steps,
    journals_are_rested, journals_grow, lines_are_seen, pasts_grow, refusals_come_first,
    settles_deliver, trees_have_paths, views_answer, views_follow, whole_records_stay,
};
pub use xemem_language::{
    Body, ByteList, Call, Command, Line, Lines, NodeShow, ProcessCall, Record, Show, call_of,
    show_of, word_count, words,
};
