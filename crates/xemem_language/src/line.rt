use crate::{Command, Record};
use xm_num::{
    Access, Apid, Block, BlockList, CallNo, Cause, Enclave, Frame, FrameList, ItemList, Kind, Pid,
    Segid, Vpn,
};

/// A list of bytes.
pub type ByteList = ItemList<u8>;

/// A line of a journal: a command that begins, its refusal, or what it did.
#[derive(Drop)]
pub enum Line {
    /// The command begins.
    Do {
        command: Command,
    },
    /// The command is refused and changes nothing.
    Refused {
        cause: Cause,
    },
    /// An enclave is born with these blocks, perhaps with the name server. The host's parent is written 0.
    Born {
        enclave: Enclave,
        kind: Kind,
        parent: Enclave,
        ns: bool,
        blocks: BlockList,
    },
    /// The enclave is born knowing that another is dead.
    Told {
        enclave: Enclave,
        of: Enclave,
    },
    /// The enclave is ready.
    Admitted {
        enclave: Enclave,
    },
    /// A process is started.
    Proc {
        enclave: Enclave,
        pid: Pid,
        uid: u32,
        gid: u32,
    },
    /// The own pages from `at` on get these machine frames.
    Alloc {
        enclave: Enclave,
        pid: Pid,
        at: Vpn,
        frames: FrameList,
    },
    /// So many own pages from `at` on are freed.
    Free {
        enclave: Enclave,
        pid: Pid,
        at: Vpn,
        pages: u32,
    },
    /// The touched page is that machine frame.
    Touched {
        enclave: Enclave,
        pid: Pid,
        page: Vpn,
        frame: Frame,
    },
    /// The call of a command waits under this number.
    Issue {
        enclave: Enclave,
        pid: Pid,
        call: CallNo,
    },
    /// The name server draws a segid for the make of that enclave and number.
    Drew {
        enclave: Enclave,
        call: CallNo,
        segid: Segid,
    },
    /// The make's segment becomes live.
    Named {
        enclave: Enclave,
        call: CallNo,
        segid: Segid,
    },
    /// The name server forgets the segment.
    Unnamed {
        segid: Segid,
    },
    /// The owner grants the get of that enclave and number.
    Grant {
        owner: Enclave,
        enclave: Enclave,
        call: CallNo,
        segid: Segid,
        access: Access,
    },
    /// An enclave refuses the call of that enclave and number.
    Deny {
        at: Enclave,
        enclave: Enclave,
        call: CallNo,
        cause: Cause,
    },
    /// The owner pins frames for the attach of that enclave and number.
    Pin {
        owner: Enclave,
        enclave: Enclave,
        call: CallNo,
    },
    /// The attachment is mapped from a page on.
    Map {
        enclave: Enclave,
        call: CallNo,
        page: Vpn,
    },
    /// The attachment is unmapped.
    Unmap {
        enclave: Enclave,
        call: CallNo,
    },
    /// The owner drops the pin.
    Unpin {
        owner: Enclave,
        enclave: Enclave,
        call: CallNo,
    },
    /// The permit ends.
    Release {
        enclave: Enclave,
        call: CallNo,
    },
    /// The owner drops the grant.
    Ungrant {
        owner: Enclave,
        enclave: Enclave,
        call: CallNo,
    },
    /// The segment of the enclave ends.
    Remove {
        enclave: Enclave,
        segid: Segid,
    },
    /// What came too late for an exited process is undone.
    Undo {
        enclave: Enclave,
        call: CallNo,
    },
    /// A call of an exited process ends with nothing to undo.
    Closed {
        enclave: Enclave,
        call: CallNo,
    },
    /// The process ends.
    Exit {
        enclave: Enclave,
        pid: Pid,
    },
    /// A make is answered by its segid.
    AnswerSegid {
        enclave: Enclave,
        pid: Pid,
        call: CallNo,
        segid: Segid,
    },
    /// A get is answered by its apid and the pages of the segment.
    AnswerApid {
        enclave: Enclave,
        pid: Pid,
        call: CallNo,
        apid: Apid,
        pages: u32,
    },
    /// An attach is answered by the address of its first page.
    AnswerAddr {
        enclave: Enclave,
        pid: Pid,
        call: CallNo,
        addr: u64,
    },
    /// A refusal reaches the caller.
    AnswerRefused {
        enclave: Enclave,
        pid: Pid,
        call: CallNo,
        cause: Cause,
    },
    /// A record goes over the channel between two neighbours.
    Sent {
        from: Enclave,
        to: Enclave,
        rec: Record,
    },
    /// So many bytes of the channel are taken.
    Took {
        from: Enclave,
        to: Enclave,
        count: u32,
    },
    /// Nothing waits in the channel.
    Idle {
        from: Enclave,
        to: Enclave,
    },
    /// The next record of the channel is whole at its end.
    Got {
        from: Enclave,
        to: Enclave,
    },
    /// The receiver takes the end mark of a child, and drops so many bytes of a record that was torn.
    End {
        from: Enclave,
        to: Enclave,
        torn: u32,
    },
    /// The enclave drops the record at hand.
    Dropped {
        enclave: Enclave,
    },
    /// The enclave remembers the neighbour that asks for the way.
    Asked {
        enclave: Enclave,
        by: Enclave,
    },
    /// The enclave's way to the name server is over that neighbour.
    Way {
        enclave: Enclave,
        over: Enclave,
    },
    /// The enclave remembers the neighbour as the way back to another enclave.
    Back {
        enclave: Enclave,
        of: Enclave,
        over: Enclave,
    },
    /// The enclave learns that another lies over that neighbour.
    Route {
        enclave: Enclave,
        of: Enclave,
        over: Enclave,
    },
    /// The monitor gives the frames of a guest's attach guest frames, from the first one on.
    Gmap {
        monitor: Enclave,
        guest: Enclave,
        owner: Enclave,
        call: CallNo,
        first: Frame,
    },
    /// The monitor drops them.
    Gdrop {
        monitor: Enclave,
        guest: Enclave,
        call: CallNo,
    },
    /// The enclave and all below it end, and so many bytes were cut off.
    Killed {
        enclave: Enclave,
        cut: u32,
    },
    /// The enclave ends.
    Stopped {
        enclave: Enclave,
    },
    /// The host holds the blocks of a dead enclave.
    Held {
        enclave: Enclave,
    },
    /// The enclave takes another as dead.
    Heard {
        enclave: Enclave,
        of: Enclave,
    },
    /// The host strikes an enclave from those for which a dead one's blocks are held.
    Confirmed {
        of: Enclave,
        by: Enclave,
    },
    /// The blocks of a dead enclave are free.
    Unheld {
        enclave: Enclave,
    },
    /// Nothing waits after so many deliveries of a settle.
    Settled {
        made: u32,
    },
    /// Something still waits after as many deliveries as a settle may make.
    Waiting {
        made: u32,
    },
    /// A mapped page of a process, and its machine frame.
    Page {
        enclave: Enclave,
        pid: Pid,
        page: Vpn,
        frame: Frame,
        access: Access,
    },
    /// The way to the name server goes over that neighbour.
    AtWay {
        enclave: Enclave,
        over: Enclave,
    },
    /// The enclave holds the name server.
    AtWayOwn {
        enclave: Enclave,
    },
    /// The enclave knows no way to the name server.
    AtWayNone {
        enclave: Enclave,
    },
    /// The learned route to another enclave goes over that neighbour.
    AtRoute {
        enclave: Enclave,
        of: Enclave,
        over: Enclave,
    },
    /// A pin of the owner's frames for an attach, offset and length in pages.
    AtPin {
        owner: Enclave,
        enclave: Enclave,
        call: CallNo,
        segid: Segid,
        offset: u32,
        pages: u32,
    },
    /// A segment that the name server knows, and its owner.
    Name {
        segid: Segid,
        owner: Enclave,
    },
    /// Waiting bytes of the channel from byte `at` on, 1 to 32 of them.
    Bytes {
        from: Enclave,
        to: Enclave,
        at: u32,
        bytes: ByteList,
    },
    /// The block is free.
    BlockFree {
        block: Block,
    },
    /// The block is lent to the enclave.
    BlockLent {
        block: Block,
        enclave: Enclave,
    },
    /// The block is held for a dead enclave.
    BlockHeld {
        block: Block,
        enclave: Enclave,
    },
}
