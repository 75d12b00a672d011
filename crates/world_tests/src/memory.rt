// A node's processes and their memory, by worked rows: a host of one block, whose frames are 0 to 63.
use crate::printed::wrote;
use enclave_node::{Call, Node, Show};
use global_model::Lines;
use page_table::{AddressSpace, PageTable};
use std::alloc::{AllocError, Global};
use std::process::Abort;
use xm_num::{Cause, Frame, Pid, Vpn, Want};

#[derive(Clone, Copy, Debug)]
enum Step {
    // A process is started, and has this number.
    Start(u32),
    // A process allocates: from this page on, so many.
    Allocate(u32, u32, u32),
    // A process reads and writes this address.
    Touch(u32, u64),
    // The routes are shown.
    Routes,
    // So many words all lines have, those of the birth too.
    Words(u64),
}

use Step::{Allocate, Routes, Start, Touch, Words};

// A step, and the lines that it writes or what it answers.
const ROWS: [(Step, &str); 23] = [
    (Start(1), "proc 0 1 100 200\n"),
    (Start(2), "proc 0 2 100 200\n"),
    (Allocate(0, 16, 1), "refused NoProcess\n"),
    (Allocate(3, 16, 1), "refused NoProcess\n"),
    (Allocate(1, 16, 2), "alloc 0 1 16 0 1\n"),
    (Allocate(2, 16_777_215, 1), "alloc 0 2 16777215 2\n"),
    (Allocate(1, 16_777_215, 2), "refused BadRange\n"),
    (Allocate(1, 17, 4096), "refused Taken\n"),
    (Allocate(1, 15, 2), "refused Taken\n"),
    (Allocate(1, 18, 62), "refused NoFrames\n"),
    (
        Allocate(1, 18, 61),
        "alloc 0 1 18 3 4 5 6 7 8 9 10 11 12 13 14 15 16 17 18 19 20 21 22 23 24 25 26 27 28 29 30 31 32 33 34 35 36 37 38 39 40 41 42 43 44 45 46 47 48 49 50 51 52 53 54 55 56 57 58 59 60 61 62 63\n",
    ),
    (Words(8 + 10 + 12 + 6 + 5 + 65), ""),
    (Touch(0, 65536), "Err(NoProcess)"),
    (Touch(3, 65536), "Err(NoProcess)"),
    (Touch(1, 65535), "Err(NotMapped)"),
    (Touch(1, 69632), "Ok((Vpn(17), Frame(1)))"),
    (Touch(1, 73728), "Ok((Vpn(18), Frame(3)))"),
    (Touch(1, 323583), "Ok((Vpn(78), Frame(63)))"),
    (Touch(1, 323584), "Err(NotMapped)"),
    (Touch(2, 68719476735), "Ok((Vpn(16777215), Frame(2)))"),
    (Touch(2, 68719476736), "Err(NotMapped)"),
    (Touch(2, 18446744073709551615), "Err(NotMapped)"),
    (Routes, "at 0 way own\n"),
];

fn says(alloc: Global, found: Result<(Vpn, Frame), Cause>, want: &str) -> Result<bool, AllocError> {
    let text = format!(in alloc; "{found:?}")?;
    Ok(text.as_str() == want)
}

// Whether the step writes or answers this.
fn answers<A: AddressSpace>(
    alloc: Global,
    node: &mut Node<A>,
    step: Step,
    want: &str,
) -> Result<bool, AllocError> {
    let mut out = Lines::new(alloc);
    match step {
        Start(pid) => {
            let found = node.start(100, 200, &mut out)?;
            Ok(found == Pid(pid) && wrote(alloc, &mut out, want)?)
        }
        Allocate(pid, at, pages) => {
            if at < 1 || at > 16_777_215 || pages < 1 || pages > 4096 {
                return Ok(false);
            }
            let call = Call::Alloc {
                at: Vpn(at),
                n: pages,
            };
            node.call(Pid(pid), &call, &mut out)?;
            wrote(alloc, &mut out, want)
        }
        Touch(pid, addr) => {
            let read = node.touch(Pid(pid), addr, Want::Read);
            let written = node.touch(Pid(pid), addr, Want::Write);
            Ok(says(alloc, read, want)? && says(alloc, written, want)?)
        }
        Routes => {
            node.show(Show::Routes, &mut out)?;
            wrote(alloc, &mut out, want)
        }
        Words(count) => Ok(node.appended() == count),
    }
}

fn memory_is_given_in_order<A: AddressSpace>(
    rt: &impl Abort,
    alloc: Global,
) -> Result<(), AllocError> {
    let mut out = Lines::new(alloc);
    let Ok(mut node) = Node::<A>::boot_host(alloc, 1, 1, true, &mut out) else {
        panic!(rt; "the host isn't born");
    };
    for (step, want) in ROWS {
        match answers(alloc, &mut node, step, want) {
            Ok(true) => {}
            _ => panic!(rt; "at {step:?}"),
        }
    }
    node.close();
    Ok(())
}

#[test]
fn memory_is_given_in_order_of_its_frames(rt: HostRuntime) -> Result<(), AllocError> {
    memory_is_given_in_order::<PageTable>(&rt, rt.alloc())
}
