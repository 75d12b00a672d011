//! The address space of a process: which pages are mapped, and the rights to its attached ranges.
//!
//! A page of a process is an own page, which its enclave allocated, or an attached one. Attached pages come in ranges,
//! and each range has a right, which is made when the range is mapped and spent when it is unmapped.
#![tactic(auto)]

mod hints;
mod rows;
mod space;
mod table;

pub use space::{AddressSpace, MapFault, MapRight};
pub use table::PageTable;
