// The exit number and the text of each status.
use scenario_run::{Status, SyntaxFault, Which, exit_number, status_text};
use scenario_text::digits;
use std::alloc::{AllocError, Global};

const MOST: u32 = 4_294_967_295;

// The exit numbers and the texts of `status`, by their places.
const TEXTS: &str = "\
0 
1 usage: xemem run | xemem load SEED CALLS
3 read fault
4 write fault
6 out of memory
8 line 1: not built yet
8 line 4294967295: not built yet
5 limit Scenario 4194304
5 limit Lines 65536
5 limit LineBytes 4096
5 limit Deliveries 262144
5 limit Words 16777216
2 line 1: unknown command
2 line 2: wrong number of words
2 line 3: word 2 is not a number here
2 line 65536: word 255 is not a number here
2 line 10: word 1 is not a keyword here
2 line 4294967295: word 0 is not a keyword here
2 line 1: command out of place
";

fn limit(which: Which) -> Status {
    Status::Limit {
        which,
        number: which.most(),
    }
}

fn syntax(line: u32, fault: SyntaxFault) -> Status {
    Status::Syntax { line, fault }
}

fn status(place: usize) -> Status {
    match place {
        0 => Status::Ok,
        1 => Status::Usage,
        2 => Status::ReadFault,
        3 => Status::WriteFault,
        4 => Status::Memory,
        5 => Status::Unbuilt { line: 1 },
        6 => Status::Unbuilt { line: MOST },
        7 => limit(Which::Scenario),
        8 => limit(Which::Lines),
        9 => limit(Which::LineBytes),
        10 => limit(Which::Deliveries),
        11 => limit(Which::Words),
        12 => syntax(1, SyntaxFault::Word),
        13 => syntax(2, SyntaxFault::Count),
        14 => syntax(3, SyntaxFault::Number(2)),
        15 => syntax(65_536, SyntaxFault::Number(255)),
        16 => syntax(10, SyntaxFault::Keyword(1)),
        17 => syntax(MOST, SyntaxFault::Keyword(0)),
        _ => syntax(1, SyntaxFault::Place),
    }
}

// The number of a status and its text, which is appended behind a space.
fn told(alloc: Global, status: &Status) -> Result<Vec<u8>, AllocError> {
    let mut out = Vec::new(alloc);
    digits(&mut out, u64::from(exit_number(status)))?;
    out.push(b' ')?;
    status_text(status, &mut out)?;
    Ok(out)
}

#[test]
fn each_status_has_its_number_and_its_text(rt: HostRuntime) -> Result<(), AllocError> {
    for (place, want) in TEXTS.split_terminator('\n').enumerate() {
        let found = told(rt.alloc(), &status(place))?;
        assert_eq!(rt; found.as_slice(), want.as_bytes());
    }
    Ok(())
}
