//! The records that enclaves send each other: their bytes, and a decoder for a stream of them that comes in any pieces.
//!
//! All numbers are little-endian. A record is a header of 16 bytes: length, version, kind, origin, destination, zero
//! and call. The fields that its kind has in the table of `fields` come after it.
#![tactic(auto)]

mod decoder;
mod fields;
mod format;
mod judge;
pub mod laws;
mod read;
mod spell;

pub use decoder::Decoder;
pub use format::{BadField, FeedFault, WireFault};
pub use spell::{encode, valid};
pub use xemem_language::{Body, Record};
