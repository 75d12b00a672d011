// What commands and lines say, by their values: the fields of each command, those of lines that no scenario writes yet, and
// where a scenario's lines end.
use crate::printed::{is_printed, text_of};
use global_model::{ByteList, Command, Line, Lines, word_count};
use scenario_text::{digits, first_line, place_ok, read_command, text};
use std::alloc::{AllocError, Global};
use xemem_wire::{Body, Record};
use xm_num::{
    Access, Apid, Block, BlockList, CallNo, Cause, Enclave, Frame, Kind, Pid, Segid, Vpn,
};

// A text and its command, on one line.
const FIELDS: &str = "\
pool 7 = Pool { blocks: 7 }
host 1 = Host { blocks: 1, ns: false }
host 2 ns = Host { blocks: 2, ns: true }
boot cokernel under 1 blocks 2 = Boot { kind: Cokernel, parent: Enclave(1), blocks: 2, ns: false }
boot vm under 3 blocks 4 ns = Boot { kind: Vm, parent: Enclave(3), blocks: 4, ns: true }
proc 1 2 3 = Proc { enclave: Enclave(1), uid: 2, gid: 3 }
alloc 1 2 3 4 = Alloc { enclave: Enclave(1), pid: Pid(2), at: Vpn(3), pages: 4 }
free 1 2 3 4 = Free { enclave: Enclave(1), pid: Pid(2), at: Vpn(3), pages: 4 }
make 1 2 3 4 0640 = Make { enclave: Enclave(1), pid: Pid(2), addr: 3, size: 4, mode: 416 }
make 1 2 3 4 0777 = Make { enclave: Enclave(1), pid: Pid(2), addr: 3, size: 4, mode: 511 }
remove 1 2 3 = Remove { enclave: Enclave(1), pid: Pid(2), segid: Segid(3) }
get 1 2 3 ro = Get { enclave: Enclave(1), pid: Pid(2), segid: Segid(3), access: ReadOnly }
get 1 2 3 rw = Get { enclave: Enclave(1), pid: Pid(2), segid: Segid(3), access: ReadWrite }
release 1 2 3 = Release { enclave: Enclave(1), pid: Pid(2), apid: Apid(3) }
attach 1 2 3 4 5 6 = Attach { enclave: Enclave(1), pid: Pid(2), apid: Apid(3), offset: 4, size: 5, addr: 6 }
detach 1 2 3 = Detach { enclave: Enclave(1), pid: Pid(2), addr: 3 }
exit 1 2 = Exit { enclave: Enclave(1), pid: Pid(2) }
touch 1 2 3 r = Touch { enclave: Enclave(1), pid: Pid(2), addr: 3, want: Read }
touch 1 2 3 w = Touch { enclave: Enclave(1), pid: Pid(2), addr: 3, want: Write }
deliver 1 2 3 = Deliver { from: Enclave(1), to: Enclave(2), count: 3 }
settle 1 = Settle { most: 1 }
kill 1 cut 2 = Kill { enclave: Enclave(1), cut: 2 }
stop 1 = Stop { enclave: Enclave(1) }
show maps 1 2 = ShowMaps { enclave: Enclave(1), pid: Pid(2) }
show routes 1 = ShowRoutes { enclave: Enclave(1) }
show pins 1 = ShowPins { enclave: Enclave(1) }
show link 1 2 = ShowLink { from: Enclave(1), to: Enclave(2) }
show pool = ShowPool
show names = ShowNames
 \t pool\t\t 7 \t = Pool { blocks: 7 }
  host \t 1    ns\t = Host { blocks: 1, ns: true }
\tshow\t pool  = ShowPool
";

// Whether the row's text is its command.
fn says(alloc: Global, row: &str) -> Result<bool, AllocError> {
    let Some((text, want)) = row.split_once(" = ") else {
        return Ok(false);
    };
    match read_command(text.as_bytes()) {
        Ok(Some(command)) => {
            let found = format!(in alloc; "{command:?}")?;
            Ok(found.as_str() == want)
        }
        _ => Ok(false),
    }
}

#[test]
fn each_word_goes_into_its_field(rt: HostRuntime) -> Result<(), AllocError> {
    for row in FIELDS.split_terminator('\n') {
        assert!(rt; says(rt.alloc(), row)?, "at {row}");
    }
    Ok(())
}

// A record of enclave 3 for the neighbour, over the channel from enclave 1 to enclave 2.
fn sent(body: Body) -> Line {
    Line::Sent {
        from: Enclave(1),
        to: Enclave(2),
        rec: Record {
            origin: Enclave(3),
            dest: None,
            call: 4,
            body,
        },
    }
}

// So many bytes that wait.
fn bytes(alloc: Global, count: u32) -> Result<Line, AllocError> {
    let mut bytes = ByteList::new(alloc);
    for _ in 0..count {
        bytes.push(9)?;
    }
    Ok(Line::Bytes {
        from: Enclave(1),
        to: Enclave(0),
        at: 64,
        bytes,
    })
}

// The lines of `WORDS`, by their places there.
fn line(alloc: Global, place: usize) -> Result<Line, AllocError> {
    let (owner, enclave, call) = (Enclave(1), Enclave(2), CallNo(3));
    let (segid, page, frame, pid) = (Segid(4), Vpn(5), Frame(6), Pid(7));
    Ok(match place {
        0 => Line::Grant {
            owner,
            enclave,
            call,
            segid,
            access: Access::ReadWrite,
        },
        1 => Line::Deny {
            at: owner,
            enclave,
            call,
            cause: Cause::NoSegment,
        },
        2 => Line::AnswerApid {
            enclave,
            pid,
            call,
            apid: Apid(8),
            pages: 9,
        },
        3 => Line::Gmap {
            monitor: Enclave(9),
            guest: enclave,
            owner,
            call,
            first: frame,
        },
        4 => Line::Page {
            enclave,
            pid,
            page,
            frame,
            access: Access::ReadOnly,
        },
        5 => Line::AtPin {
            owner,
            enclave,
            call,
            segid,
            offset: 5,
            pages: 6,
        },
        6 => sent(Body::Get {
            segid,
            flags: 5,
            uid: 6,
            gid: 7,
        }),
        7 => sent(Body::Attach {
            apid: Apid(8),
            offset: 5,
            pages: 6,
        }),
        8 => sent(Body::Found {
            segid,
            owner: Some(enclave),
        }),
        _ => other_line(alloc, place)?,
    })
}

fn other_line(alloc: Global, place: usize) -> Result<Line, AllocError> {
    Ok(match place {
        9 => Line::Born {
            enclave: Enclave(65_534),
            kind: Kind::Vm,
            parent: Enclave(3),
            ns: true,
            blocks: BlockList::new(alloc),
        },
        10 => Line::Told {
            enclave: Enclave(65_534),
            of: Enclave(1),
        },
        11 => Line::End {
            from: Enclave(1),
            to: Enclave(65_534),
            torn: 4_294_967_295,
        },
        12 => Line::BlockHeld {
            block: Block(17),
            enclave: Enclave(3),
        },
        13 => bytes(alloc, 0)?,
        _ => bytes(alloc, 65)?,
    })
}

const WORDS: &str = "\
grant 1 2 3 4 rw
deny 1 2 3 NoSegment
answer 2 7 3 apid 8 pages 9
gmap 9 2 1 3 6
page 2 7 5 6 ro
at 1 pin 2 3 4 5 6
sent 1 2 get 3 65535 4 4 5 6 7
sent 1 2 attach 3 65535 4 8 5 6
sent 1 2 found 3 65535 4 4 2
born 65534 vm 3 ns
told 65534 1
end 1 65534 4294967295
block 17 held 3
bytes 1 0 64
bytes 1 0 64 0909090909090909090909090909090909090909090909090909090909090909090909090909090909090909090909090909090909090909090909090909090909
";

#[test]
fn each_field_is_printed_at_its_place(rt: HostRuntime) -> Result<(), AllocError> {
    for (place, text) in WORDS.split_terminator('\n').enumerate() {
        let line = line(rt.alloc(), place)?;
        assert!(rt; is_printed(rt.alloc(), &line, "", text)?, "at {text}");
    }
    for number in 1..22u32 {
        let Some(cause) = Cause::from_number(number) else {
            panic!(rt; "{number} is no cause");
        };
        let text = format!(in rt.alloc(); "{cause:?}")?;
        let line = Line::Refused { cause };
        assert!(rt;
            is_printed(rt.alloc(), &line, "refused ", &text)?,
            "at {text}"
        );
    }
    Ok(())
}

// A text, its first line and the rest.
const PARTS: [(&str, &str, &str); 9] = [
    ("pool 1\nhost 1\n", "pool 1", "host 1\n"),
    ("pool 1\n\nhost 1", "pool 1", "\nhost 1"),
    ("host 1\n", "host 1", ""),
    ("host 1", "host 1", ""),
    ("\nhost 1", "", "host 1"),
    ("\n", "", ""),
    ("\n\n", "", "\n"),
    ("a\r\nb", "a\r", "b"),
    ("a", "a", ""),
];

fn parts(text: &str, line: &str, rest: &str) -> bool {
    !text.is_empty() && first_line(text.as_bytes()) == (line.as_bytes(), rest.as_bytes())
}

// Whether the pool, the host and others may stand after so many commands.
fn places(before: u32) -> [bool; 4] {
    let (blocks, ns) = (1, false);
    let (kind, parent) = (Kind::Vm, Enclave(3));
    let boot = Command::Boot {
        kind,
        parent,
        blocks,
        ns,
    };
    [
        place_ok(before, &Command::Pool { blocks }),
        place_ok(before, &Command::Host { blocks, ns }),
        place_ok(before, &boot),
        place_ok(before, &Command::ShowPool),
    ]
}

#[test]
fn a_scenario_is_parted_and_its_commands_have_their_places(rt: HostRuntime) {
    for (text, line, rest) in PARTS {
        assert!(rt; parts(text, line, rest), "at {text}");
    }
    for (before, pool, host, other) in [
        (0, true, false, false),
        (1, false, true, false),
        (2, false, false, true),
        (3, false, false, true),
        (4_294_967_295, false, false, true),
    ] {
        assert_eq!(rt;
            places(before),
            [pool, host, other, other],
            "after {before}"
        );
    }
}

// A list of two lines, a part of which is taken away again, and another one behind it.
fn listed(alloc: Global) -> Result<bool, AllocError> {
    let mut lines = Lines::new(alloc);
    if lines.len() != 0 || lines.get(0).is_some() {
        return Ok(false);
    }
    lines.push(Line::Do {
        command: Command::Pool { blocks: 2 },
    })?;
    lines.push(Line::Admitted {
        enclave: Enclave(0),
    })?;
    let first = lines.get(0).map(|line| word_count(line));
    let second = lines.get(1).map(|line| word_count(line));
    if lines.len() != 2 || (first, second) != (Some(3), Some(2)) || lines.words() != 5 {
        return Ok(false);
    }
    lines.truncate(1);
    let mut more = Lines::new(alloc);
    more.push(Line::Idle {
        from: Enclave(1),
        to: Enclave(0),
    })?;
    lines.append(&mut more)?;
    let text = text_of(alloc, lines.as_slice())?;
    Ok(text.as_slice() == b"do pool 2\nidle 1 0\n".as_slice() && more.len() == 0)
}

#[test]
fn lines_grow_at_their_end(rt: HostRuntime) -> Result<(), AllocError> {
    assert!(rt; listed(rt.alloc())?);
    let mut out = Vec::new(rt.alloc());
    text(&mut out, b"at ")?;
    digits(&mut out, u64::MAX)?;
    assert_eq!(rt; out.as_slice(), b"at 18446744073709551615".as_slice());
    Ok(())
}
