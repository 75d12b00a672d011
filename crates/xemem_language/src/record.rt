// Records: what enclaves send each other.
use xm_num::{Apid, Enclave, FrameList, Segid};

/// What a record says, one variant a kind.
#[derive(Drop)]
pub enum Body {
    Query,
    Here,
    Register,
    Admit,
    NameReq,
    Named {
        segid: Segid,
    },
    Unname {
        segid: Segid,
    },
    Lookup {
        segid: Segid,
    },
    Found {
        segid: Segid,
        owner: Option<Enclave>,
    },
    Get {
        segid: Segid,
        flags: u32,
        uid: u32,
        gid: u32,
    },
    Granted {
        pages: u32,
    },
    GetRefused {
        cause: u32,
    },
    Release {
        apid: Apid,
    },
    /// Offset and pages count pages.
    Attach {
        apid: Apid,
        offset: u32,
        pages: u32,
    },
    Attached {
        frames: FrameList,
    },
    AttachRefused {
        cause: u32,
    },
    Detach,
    Died {
        enclave: Enclave,
    },
    Dead {
        enclave: Enclave,
    },
    Confirm {
        enclave: Enclave,
    },
}

/// A record with the enclave that first sent it and the one that it is for. No destination stands for the neighbour,
/// the name server or the host, as the kind has it. The call is the number of the call that it serves, or 0.
#[derive(Drop)]
pub struct Record {
    pub origin: Enclave,
    pub dest: Option<Enclave>,
    pub call: u32,
    pub body: Body,
}
