//! The processes of an enclave, their spaces, the calls that wait for an answer, and the permits that calls got.
//!
//! Processes and calls are numbered from 1 in the order in which they were started and issued, and stand in that order.
//! A permit has the number of the call that got it.
#![tactic(auto)]

mod attacher;
mod calls;
mod permits;
mod process;
mod processes;

pub use attacher::Attacher;
use xm_num::{Access, Apid, CallNo, Enclave, Pid, Segid};

/// What a waiting call is for.
#[derive(Clone, Copy, Debug, PartialEq, Eq)]
pub enum Pending {
    /// A segment's name, from the name server.
    Make,
    /// The owner of a segment, from the name server, to get a permit there.
    Lookup {
        segid: Segid,
        access: Access,
    },
    /// A permit, from the segment's owner.
    GetFrom {
        owner: Enclave,
        segid: Segid,
        access: Access,
    },
}

/// A call that waits for its answer.
#[derive(Clone, Copy, Debug, PartialEq, Eq)]
pub struct Waiting {
    pub call: CallNo,
    pub pid: Pid,
    /// Whether its process lives. Processes may end before their calls do.
    pub living: bool,
    pub what: Pending,
}

/// A permit to attach pages of a segment.
#[derive(Clone, Copy, Debug, PartialEq, Eq)]
pub struct Permit {
    pub owner: Enclave,
    pub segid: Segid,
    pub access: Access,
    /// How many pages the segment has.
    pub pages: u32,
}

/// By what permits are asked for.
#[derive(Clone, Copy, Debug, PartialEq, Eq)]
pub enum Holder {
    /// Those of a process.
    Process(Pid),
    /// The one of that name.
    Permit(Apid),
    /// Those from an owner.
    Owner(Enclave),
}
