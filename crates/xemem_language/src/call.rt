// The calls of processes, and what can be shown of a node.
ghost use Rattle.std.specs.Prelude.{◌≡◌, IfSome};
ghost use Rattle.xemem_language.specs.Ranges.{IsInRange};
ghost use Rattle.xemem_language.specs.Calls as spec;

use crate::Command;
use xm_num::{Enclave, Pid, Segid, Vpn};

/// A call of a process.
#[derive(Clone, Copy, Debug, PartialEq, Eq)]
pub enum Call {
    /// Maps own pages to the lowest unused frames: `n` of them, 1 to 4,096, from page `at` on.
    Alloc { at: Vpn, n: u32 },
    /// Exports the own pages from the address on, of so many bytes, to those that the mode allows.
    Make { addr: u64, size: u64, mode: u16 },
    /// Ends an export of the process.
    Remove { segid: Segid },
}

/// A call, and the process of an enclave that makes it.
#[derive(Clone, Copy, Debug, PartialEq, Eq)]
pub struct ProcessCall {
    pub enclave: Enclave,
    pub pid: Pid,
    pub call: Call,
}

/// What can be shown of a node.
#[derive(Clone, Copy, Debug, PartialEq, Eq)]
pub enum Show {
    /// The way to the name server, and the learned routes.
    Routes,
    /// The state of each block, at the host.
    Pool,
    /// The segments and their owners, at the name server's enclave.
    Names,
}

/// What is to be shown, and the enclave of which.
#[derive(Clone, Copy, Debug, PartialEq, Eq)]
pub struct NodeShow {
    pub enclave: Enclave,
    pub show: Show,
}

/// The call for which a command asks, where it is one of those.
pub fn call_of(command: &Command) -> Option<ProcessCall>
    ensures call { result ≡ spec.call_of command.now }
    ensures range { IsInRange command.now → IfSome result (λ k. spec.IsCallInRange k.call) }
{
    match *command {
        Command::Alloc {
            enclave,
            pid,
            at,
            pages,
        } => Some(ProcessCall {
            enclave,
            pid,
            call: Call::Alloc { at, n: pages },
        }),
        Command::Make {
            enclave,
            pid,
            addr,
            size,
            mode,
        } => Some(ProcessCall {
            enclave,
            pid,
            call: Call::Make { addr, size, mode },
        }),
        Command::Remove {
            enclave,
            pid,
            segid,
        } => Some(ProcessCall {
            enclave,
            pid,
            call: Call::Remove { segid },
        }),
        _ => None,
    }
}

/// What a command asks to be shown of a node, where it is one of those.
pub fn show_of(command: &Command) -> Option<NodeShow>
    ensures show { result ≡ spec.show_of command.now }
    ensures host { IfSome result (λ s. spec.IsShowable s) }
{
    match *command {
        Command::ShowRoutes { enclave } => Some(NodeShow {
            enclave,
            show: Show::Routes,
        }),
        Command::ShowPool => Some(NodeShow {
            enclave: Enclave(0),
            show: Show::Pool,
        }),
        _ => None,
    }
}
