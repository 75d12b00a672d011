// `attach_map`: processes, their pages, their waiting calls and their permits.
use attach_map::{Attacher, Holder, Pending, Permit, Waiting};
use page_table::{AddressSpace, MapFault, PageTable};
use std::alloc::AllocError;
use xm_num::{Access, Apid, CallNo, Enclave, Frame, Pid, Segid, Vpn};

#[derive(Drop)]
enum Step {
    // The calls of `Attacher`, by the numbers of processes, calls and owners, each with what it answers.
    Start(u32, u32, u32),
    User(u32, Option<(u32, u32)>),
    Busy(u32, Option<u32>),
    Own(u32, u32, &'static [Frame], Result<(), MapFault>),
    Walk(u32, u32, Option<(Frame, Access)>),
    Issue(u32, Pending, u32),
    Waits(u32, Option<(u32, bool, Pending)>),
    Next(u16, u32, Option<u32>),
    Found(u32, u16),
    Settle(u32),
    // A call and the pages of its permit.
    Grant(u32, u32),
    Permit(u32, i64, Option<Permit>),
    Lowest(Holder, Option<i64>),
    Release(u32, i64),
    Exit(u32),
    // How many processes were started and calls issued.
    Drawn(u32, u32),
}

fn answers<A: AddressSpace>(attacher: &mut Attacher<A>, step: &Step) -> bool {
    match step {
        Step::Start(uid, gid, want) => starts(attacher, *uid, *gid, *want),
        Step::User(pid, want) => attacher.user(Pid(*pid)) == *want,
        Step::Busy(pid, want) => attacher.busy(Pid(*pid)) == want.map(CallNo),
        Step::Own(pid, at, frames, want) => owns(attacher, Pid(*pid), *at, frames, *want),
        Step::Walk(pid, page, want) => walks(attacher, Pid(*pid), *page, *want),
        Step::Issue(pid, what, want) => issues(attacher, Pid(*pid), *what, *want),
        Step::Waits(call, want) => waits(attacher, CallNo(*call), *want),
        Step::Next(owner, from, want) => {
            attacher.next_waiting(Enclave(*owner), CallNo(*from)) == want.map(CallNo)
        }
        Step::Found(call, owner) => founds(attacher, CallNo(*call), Enclave(*owner)),
        Step::Settle(call) => settles(attacher, CallNo(*call)),
        Step::Grant(call, pages) => grants(attacher, CallNo(*call), *pages),
        Step::Permit(pid, apid, want) => attacher.permit_of(Pid(*pid), Apid(*apid)) == *want,
        Step::Lowest(of, want) => attacher.lowest_permit(*of) == want.map(Apid),
        Step::Release(pid, apid) => releases(attacher, Pid(*pid), Apid(*apid)),
        Step::Exit(pid) => exits(attacher, Pid(*pid)),
        Step::Drawn(started, issued) => {
            attacher.started() == *started && attacher.issued() == *issued
        }
    }
}

fn starts<A: AddressSpace>(attacher: &mut Attacher<A>, uid: u32, gid: u32, want: u32) -> bool {
    attacher.started() < u32::MAX && attacher.start(uid, gid) == Ok(Pid(want))
}

fn owns<A: AddressSpace>(
    attacher: &mut Attacher<A>,
    pid: Pid,
    at: u32,
    frames: &[Frame],
    want: Result<(), MapFault>,
) -> bool {
    if at < 1 || at > 1000 || frames.len() > 1000 || attacher.user(pid).is_none() {
        return false;
    }
    attacher.own(pid, Vpn(at), frames) == want
}

fn walks<A: AddressSpace>(
    attacher: &Attacher<A>,
    pid: Pid,
    page: u32,
    want: Option<(Frame, Access)>,
) -> bool {
    match attacher.space(pid) {
        Some(space) => space.walk(Vpn(page)) == want,
        None => false,
    }
}

fn issues<A: AddressSpace>(attacher: &mut Attacher<A>, pid: Pid, what: Pending, want: u32) -> bool {
    if attacher.user(pid).is_none()
        || attacher.busy(pid).is_some()
        || attacher.issued() == u32::MAX
    {
        return false;
    }
    attacher.issue(pid, what) == Ok(CallNo(want))
}

fn waits<A: AddressSpace>(
    attacher: &Attacher<A>,
    call: CallNo,
    want: Option<(u32, bool, Pending)>,
) -> bool {
    match (attacher.waiting(call), want) {
        (Some(waiting), Some((pid, living, what))) => {
            waiting
                == Waiting {
                    call,
                    pid: Pid(pid),
                    living,
                    what,
                }
        }
        (None, None) => true,
        _ => false,
    }
}

fn founds<A: AddressSpace>(attacher: &mut Attacher<A>, call: CallNo, owner: Enclave) -> bool {
    match attacher.waiting(call) {
        Some(waiting) => match waiting.what {
            Pending::Lookup { .. } => {
                attacher.found(call, owner);
                true
            }
            _ => false,
        },
        None => false,
    }
}

fn settles<A: AddressSpace>(attacher: &mut Attacher<A>, call: CallNo) -> bool {
    match attacher.waiting(call) {
        Some(_) => {
            attacher.settle_reply(call);
            true
        }
        None => false,
    }
}

fn grants<A: AddressSpace>(attacher: &mut Attacher<A>, call: CallNo, pages: u32) -> bool {
    match attacher.waiting(call) {
        Some(
            Waiting {
                living: true,
                what: Pending::GetFrom { .. },
                ..
            },
        ) => attacher.granted(call, pages) == Ok(()),
        _ => false,
    }
}

fn releases<A: AddressSpace>(attacher: &mut Attacher<A>, pid: Pid, apid: Apid) -> bool {
    match attacher.permit_of(pid, apid) {
        Some(_) => {
            attacher.release(apid);
            true
        }
        None => false,
    }
}

fn exits<A: AddressSpace>(attacher: &mut Attacher<A>, pid: Pid) -> bool {
    if attacher.user(pid).is_none() || attacher.lowest_permit(Holder::Process(pid)).is_some() {
        return false;
    }
    attacher.exit(pid);
    true
}

// The row that answers something else than wanted, where there is one.
fn first_wrong<A: AddressSpace>(attacher: &mut Attacher<A>, steps: &[Step]) -> Option<usize> {
    for (row, step) in steps.iter().enumerate() {
        if !answers(attacher, step) {
            return Some(row);
        }
    }
    None
}

const READ: Access = Access::ReadOnly;

const LOOKUP: Pending = Pending::Lookup {
    segid: Segid(7),
    access: READ,
};

const GET_FROM_3: Pending = Pending::GetFrom {
    owner: Enclave(3),
    segid: Segid(7),
    access: READ,
};

const GET_FROM_4: Pending = Pending::GetFrom {
    owner: Enclave(4),
    segid: Segid(9),
    access: Access::ReadWrite,
};

// Processes start in order, have pages of their own, and end.
const PROCESSES: &[Step] = &[
    Step::User(1, None),
    Step::Start(10, 20, 1),
    Step::Start(11, 21, 2),
    Step::Start(10, 20, 3),
    Step::User(0, None),
    Step::User(1, Some((10, 20))),
    Step::User(2, Some((11, 21))),
    Step::User(4, None),
    Step::Own(2, 5, &[Frame(8), Frame(9)], Ok(())),
    Step::Own(2, 4, &[Frame(1), Frame(2)], Err(MapFault::Taken(Vpn(5)))),
    Step::Walk(2, 6, Some((Frame(9), Access::ReadWrite))),
    Step::Walk(2, 4, None),
    Step::Walk(1, 6, None),
    Step::Exit(2),
    Step::User(2, None),
    Step::User(3, Some((10, 20))),
    Step::Start(12, 22, 4),
    Step::User(4, Some((12, 22))),
    Step::Drawn(4, 0),
];

// Calls are issued, looked up, found and settled.
const CALLS: &[Step] = &[
    Step::Start(1, 1, 1),
    Step::Start(2, 2, 2),
    Step::Start(3, 3, 3),
    Step::Busy(1, None),
    Step::Issue(1, Pending::Make, 1),
    Step::Issue(2, LOOKUP, 2),
    Step::Issue(3, GET_FROM_4, 3),
    Step::Busy(1, Some(1)),
    Step::Busy(2, Some(2)),
    Step::Waits(2, Some((2, true, LOOKUP))),
    Step::Next(3, 0, None),
    Step::Next(4, 0, Some(3)),
    Step::Next(4, 3, Some(3)),
    Step::Next(4, 4, None),
    Step::Found(2, 3),
    Step::Waits(2, Some((2, true, GET_FROM_3))),
    Step::Next(3, 0, Some(2)),
    Step::Settle(1),
    Step::Busy(1, None),
    Step::Waits(1, None),
    Step::Issue(1, GET_FROM_3, 4),
    Step::Next(3, 0, Some(2)),
    Step::Next(3, 3, Some(4)),
    Step::Settle(2),
    Step::Next(3, 0, Some(4)),
    Step::Drawn(3, 4),
];

// A call waits on once its process has ended.
const ORPHANS: &[Step] = &[
    Step::Start(1, 1, 1),
    Step::Start(2, 2, 2),
    Step::Issue(2, GET_FROM_3, 1),
    Step::Issue(1, LOOKUP, 2),
    Step::Exit(2),
    Step::Busy(2, None),
    Step::Waits(1, Some((2, false, GET_FROM_3))),
    Step::Waits(2, Some((1, true, LOOKUP))),
    Step::Next(3, 1, Some(1)),
    Step::Settle(1),
    Step::Waits(1, None),
    Step::Busy(1, Some(2)),
    Step::Exit(1),
    Step::Waits(2, Some((1, false, LOOKUP))),
    Step::Found(2, 3),
    Step::Next(3, 0, Some(2)),
    Step::Drawn(2, 2),
];

const FROM_3: Permit = Permit {
    owner: Enclave(3),
    segid: Segid(7),
    access: READ,
    pages: 5,
};

const FROM_4: Permit = Permit {
    owner: Enclave(4),
    segid: Segid(9),
    access: Access::ReadWrite,
    pages: 6,
};

// Permits come under the numbers of their calls, in any order, are found, and are dropped.
const PERMITS: &[Step] = &[
    Step::Start(1, 1, 1),
    Step::Start(2, 2, 2),
    Step::Issue(1, GET_FROM_4, 1),
    Step::Issue(2, GET_FROM_3, 2),
    Step::Grant(2, 5),
    Step::Waits(2, None),
    Step::Busy(2, None),
    Step::Permit(2, 2, Some(FROM_3)),
    Step::Permit(1, 2, None),
    Step::Permit(1, 1, None),
    Step::Grant(1, 6),
    Step::Issue(1, GET_FROM_3, 3),
    Step::Grant(3, 5),
    Step::Permit(1, 1, Some(FROM_4)),
    Step::Permit(1, -1, None),
    Step::Permit(1, 4_294_967_297, None),
    Step::Lowest(Holder::Process(Pid(1)), Some(1)),
    Step::Lowest(Holder::Owner(Enclave(3)), Some(2)),
    Step::Lowest(Holder::Permit(Apid(3)), Some(3)),
    Step::Lowest(Holder::Permit(Apid(4)), None),
    Step::Release(1, 1),
    Step::Permit(1, 1, None),
    Step::Lowest(Holder::Process(Pid(1)), Some(3)),
    Step::Lowest(Holder::Owner(Enclave(4)), None),
    Step::Release(2, 2),
    Step::Exit(2),
    Step::Lowest(Holder::Owner(Enclave(3)), Some(3)),
    Step::Release(1, 3),
    Step::Exit(1),
    Step::Drawn(2, 3),
];

#[test]
fn processes_calls_and_permits(rt: HostRuntime) -> Result<(), AllocError> {
    let tables = [
        ("processes", PROCESSES),
        ("calls", CALLS),
        ("orphans", ORPHANS),
        ("permits", PERMITS),
    ];
    for (name, steps) in tables {
        let mut attacher = Attacher::<PageTable>::new(rt.alloc())?;
        let row = first_wrong(&mut attacher, steps);
        attacher.close();
        assert_eq!(rt; row, None, "{name}");
    }
    Ok(())
}
