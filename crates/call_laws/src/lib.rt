//! What makes and removes do: each of their lines is lawful by the lines before it, of each call at most one record is under way
//! and none is lost, and segids are drawn upwards, each once.
//!
//! Each law is the contract of a function that does nothing, which a crate above calls to have it.
#![tactic(auto)]

mod laws;

pub use laws::{
    calls_are_legal, cells_are_true, makes_have_places, records_are_single, records_go_on,
    rest_is_even, roads_are_known, segids_are_one, short_journals_have_room,
};
