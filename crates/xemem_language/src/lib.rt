//! The language of scenarios and journals: commands, journal lines, the records that enclaves send each other, and the
//! calls of processes.
#![tactic(auto)]

mod call;
mod command;
mod count;
mod line;
mod lines;
mod record;

pub use call::{Call, NodeShow, ProcessCall, Show, call_of, show_of};
pub use command::Command;
pub use count::{word_count, words};
pub use line::{ByteList, Line};
pub use lines::Lines;
pub use record::{Body, Record};
