//! The numbers and small words of the machine: enclaves, processes, calls, pages, frames and blocks, and lists of them.
//!
//! Each number is a type of its own, so that a page can't stand where a frame belongs. A frame and a page have
//! 4,096 bytes, and a block is 64 frames.
#![tactic(auto)]

pub mod laws;
mod list;
mod numbers;
mod sizes;

pub use list::{BlockList, EnclaveList, FrameList, ItemList};
pub use sizes::{pages, region};

/// The number of an enclave. The host is 0.
#[derive(Clone, Copy, Debug, PartialEq, Eq, PartialOrd, Ord)]
pub struct Enclave(pub u16);

/// The number of a process in its enclave, from 1.
#[derive(Clone, Copy, Debug, PartialEq, Eq, PartialOrd, Ord)]
pub struct Pid(pub u32);

/// The number of a call in its enclave, from 1.
#[derive(Clone, Copy, Debug, PartialEq, Eq, PartialOrd, Ord)]
pub struct CallNo(pub u32);

/// The name of an export, drawn by the name server from 1.
#[derive(Clone, Copy, Debug, PartialEq, Eq, PartialOrd, Ord)]
pub struct Segid(pub i64);

/// The name of a permit: the number of the get call that it answers.
#[derive(Clone, Copy, Debug, PartialEq, Eq, PartialOrd, Ord)]
pub struct Apid(pub i64);

/// The number of a page in a process's space, from 1 to 16,777,215.
#[derive(Clone, Copy, Debug, PartialEq, Eq, PartialOrd, Ord)]
pub struct Vpn(pub u32);

/// The number of a frame.
#[derive(Clone, Copy, Debug, PartialEq, Eq, PartialOrd, Ord)]
pub struct Frame(pub u32);

/// The number of a block. Block `b` is the frames from `64 * b` on.
#[derive(Clone, Copy, Debug, PartialEq, Eq, PartialOrd, Ord)]
pub struct Block(pub u16);

/// The kind of an enclave.
#[derive(Clone, Copy, Debug, PartialEq, Eq)]
pub enum Kind {
    /// The first enclave, which has no parent.
    Host,
    /// A co-kernel on the machine's own frames.
    Cokernel,
    /// A virtual machine, whose frames its monitor numbers anew.
    Vm,
}

/// What the pages of a permit may be used for.
#[derive(Clone, Copy, Debug, PartialEq, Eq)]
pub enum Access {
    /// To read.
    ReadOnly,
    /// To read and to write.
    ReadWrite,
}

/// What a page of a process is mapped to.
#[derive(Clone, Copy, Debug, PartialEq, Eq)]
pub struct Page {
    pub frame: Frame,
    pub access: Access,
    /// Whether it is an own page of the process, and not an attached one.
    pub own: bool,
}

/// What a touch wants of a page.
#[derive(Clone, Copy, Debug, PartialEq, Eq)]
pub enum Want {
    /// To read a byte.
    Read,
    /// To write a byte.
    Write,
}

/// An end of one of an enclave's channels, as that enclave sees it: its parent, or one of its children.
#[derive(Clone, Copy, Debug, PartialEq, Eq)]
pub enum Neighbour {
    /// The parent.
    Up,
    /// This child.
    Down(Enclave),
}

/// Why a command was refused.
#[derive(Clone, Copy, Debug, PartialEq, Eq)]
pub enum Cause {
    /// The enclave isn't admitted, or there is no name server.
    NotReady,
    /// The enclave has no such living process.
    NoProcess,
    /// The process waits for an answer, or the enclave has something living.
    Busy,
    /// An address, a size or an offset isn't a multiple of 4,096.
    BadAlign,
    /// A size is 0, or pages lie outside what may be named.
    BadRange,
    /// No live segment has the name.
    NoSegment,
    /// The mode of the segment or the access of the page doesn't allow it.
    Denied,
    /// There is no such permit.
    NoPermit,
    /// A page is mapped already, or no run of pages is free.
    Taken,
    /// The owner was heard dead.
    OwnerDied,
    /// The enclave has too few unused frames.
    NoFrames,
    /// The pool has too few free blocks.
    NoBlocks,
    /// There are more than 4,096 pages.
    TooLarge,
    /// Another process made the segment.
    NotOwner,
    /// The page isn't mapped as it would have to be.
    NotMapped,
    /// There is no such living enclave.
    NoEnclave,
    /// A virtual machine can't be a parent.
    BadParent,
    /// The enclave can't end: it is the host, or it or an enclave below it holds the name server.
    NameServerHeld,
    /// An enclave was born with the name server.
    NameServerTaken,
    /// A number has come to its limit.
    TooMany,
    /// Neither enclave is the other's parent.
    NoLink,
}
