// `xm_num`: lists, sizes and addresses, and the numbers of causes.
use xm_num::{Cause, Frame, FrameList, Vpn, pages, region};

#[derive(Drop)]
enum Step {
    // Adds a frame to the list.
    Push(Frame),
    // How many frames the list has, the one at a place, and all of them.
    Len(usize),
    Get(usize, Option<Frame>),
    All(&'static [Frame]),
    // The pages of so many bytes, and of so many from an address on.
    Pages(u64, Result<u32, Cause>),
    Region(u64, u32, Result<Vpn, Cause>),
    // The number of a cause, and the cause of a number.
    Number(Cause, u32),
    Named(u32, Option<Cause>),
}

fn answers(frames: &mut FrameList, step: &Step) -> bool {
    match step {
        Step::Push(frame) => frames.push(*frame).is_ok(),
        Step::Len(want) => frames.len() == *want,
        Step::Get(place, want) => frames.get(*place) == *want,
        Step::All(want) => are(frames.as_slice(), want),
        Step::Pages(bytes, want) => pages(*bytes) == *want,
        Step::Region(address, count, want) => *count >= 1 && region(*address, *count) == *want,
        Step::Number(cause, want) => cause.number() == *want,
        Step::Named(number, want) => Cause::from_number(*number) == *want,
    }
}

fn are(frames: &[Frame], want: &[Frame]) -> bool {
    frames == want
}

#[test]
fn numbers_and_lists_of_them(rt: HostRuntime) {
    let mut frames = FrameList::new(rt.alloc());
    let steps = [
        Step::Len(0),
        Step::Get(0, None),
        Step::Push(Frame(7)),
        Step::Push(Frame(3)),
        Step::Push(Frame(7)),
        Step::Len(3),
        Step::Get(1, Some(Frame(3))),
        Step::All(&[Frame(7), Frame(3), Frame(7)]),
        Step::Pages(0, Err(Cause::BadRange)),
        Step::Pages(1, Err(Cause::BadAlign)),
        Step::Pages(4095, Err(Cause::BadAlign)),
        Step::Pages(4096, Ok(1)),
        Step::Pages(12288, Ok(3)),
        Step::Pages(16777216, Ok(4096)),
        Step::Pages(16781312, Err(Cause::TooLarge)),
        Step::Pages(18446744073709551615, Err(Cause::BadAlign)),
        Step::Pages(18446744073709547520, Err(Cause::TooLarge)),
        Step::Region(65537, 1, Err(Cause::BadAlign)),
        Step::Region(0, 1, Err(Cause::BadRange)),
        Step::Region(65536, 3, Ok(Vpn(16))),
        Step::Region(68719472640, 1, Ok(Vpn(16777215))),
        Step::Region(68719472640, 2, Err(Cause::BadRange)),
        Step::Region(4096, 16777215, Ok(Vpn(1))),
        Step::Region(4096, 16777216, Err(Cause::BadRange)),
        Step::Region(18446744073709547520, 4294967295, Err(Cause::BadRange)),
        Step::Number(Cause::NotReady, 1),
        Step::Named(1, Some(Cause::NotReady)),
        Step::Number(Cause::BadRange, 5),
        Step::Named(5, Some(Cause::BadRange)),
        Step::Number(Cause::NoSegment, 6),
        Step::Named(6, Some(Cause::NoSegment)),
        Step::Number(Cause::Denied, 7),
        Step::Named(7, Some(Cause::Denied)),
        Step::Number(Cause::NoPermit, 8),
        Step::Named(8, Some(Cause::NoPermit)),
        Step::Number(Cause::NoLink, 21),
        Step::Named(21, Some(Cause::NoLink)),
        Step::Named(0, None),
        Step::Named(22, None),
    ];
    for (row, step) in steps.iter().enumerate() {
        assert!(rt; answers(&mut frames, step), "row {row}");
    }
}
