// The limits on the deliveries and the words of a world, where no scenario has enough lines to come there, and that a world
// that is full stays so.
ghost use Rattle.std.specs.Prelude.{◌≡◌, ◌≤◌, ℕ, true};
ghost use Rattle.global_model.specs.Place.{may_stand};
ghost use Rattle.global_model.specs.Ranges.{IsInRange};

use crate::runs::word_list;
use global_model::{Command, Line};
use node_world::{Which, World, WorldFault};
use scenario_run::{Status, xemem_main};
use scenario_text::digits;
use std::alloc::{AllocError, Global};
use std::process::Abort;
use xm_edge::{MemSink, MemSource};
use xm_num::{Enclave, Kind};

const MOST_DELIVERIES: u32 = 262_144;

const MOST_WORDS: u64 = 16_777_216;

#[derive(Clone, Copy, Debug)]
enum Step {
    // One byte of those that wait is delivered.
    Byte { from: u8, to: u8 },
    // A child is born.
    Child { parent: u8 },
    Settle { most: u32 },
    ShowPool,
}

fn deliver(from: u8, to: u8) -> Command
    ensures later { (before : ℕ) → 2 ≤ before → may_stand before result ≡ true }
    ensures range { IsInRange result }
{
    Command::Deliver {
        from: Enclave(u16::from(from)),
        to: Enclave(u16::from(to)),
        count: 1,
    }
}

fn child(parent: u8) -> Command
    ensures later { (before : ℕ) → 2 ≤ before → may_stand before result ≡ true }
    ensures range { IsInRange result }
{
    Command::Boot {
        kind: Kind::Cokernel,
        parent: Enclave(u16::from(parent)),
        blocks: 1,
        ns: false,
    }
}

fn command_of(step: Step) -> Command
    ensures later { (before : ℕ) → 2 ≤ before → may_stand before result ≡ true }
    ensures range { IsInRange result }
{
    match step {
        Step::Byte { from, to } => deliver(from, to),
        Step::Child { parent } => child(parent),
        Step::Settle { most } => Command::Settle { most },
        Step::ShowPool => Command::ShowPool,
    }
}

// Carries out a step on a world on which two commands began.
fn goes_on(rt: &impl Abort, world: &mut World, step: Step) -> Result<(), WorldFault> {
    let command = command_of(step);
    match world.journal().as_slice() {
        [Line::Do { .. }, Line::Do { .. }, ..] => world.step(&command),
        _ => panic!(rt; "two commands began"),
    }
}

// A world after this scenario, and whether it was run to its end.
fn world_after(alloc: Global, scenario: &[u8], room: u32) -> Result<(World, bool), AllocError> {
    let words = word_list(alloc, &["run"])?;
    let mut source = MemSource::new(Vec::from_slice(alloc, scenario)?, Vec::new(alloc));
    let mut sink = MemSink::new(alloc, room, Vec::new(alloc))?;
    let mut world = World::new(alloc)?;
    let status = xemem_main(alloc, &words, &mut source, &mut sink, &mut world);
    Ok((world, status == Status::Ok))
}

// A host with the name server, by this scenario.
fn host_world(rt: &impl Abort, alloc: Global, scenario: &[u8]) -> World {
    match world_after(alloc, scenario, 4096) {
        Ok((world, true)) => world,
        Ok((world, false)) => {
            world.close();
            panic!(rt; "the host isn't born")
        }
        Err(AllocError) => panic!(rt; "memory is wanting"),
    }
}

// Delivers the 16 bytes of a record one by one, until so many deliveries were made.
fn delivers(rt: &impl Abort, world: &mut World, from: u8, to: u8, most: u32) {
    for _ in 0..16 {
        if world.deliveries() < most {
            assert_eq!(rt; goes_on(rt, world, Step::Byte { from, to }), Ok(()));
        }
    }
}

// The next child of a chain asks its parent for the way, registers at the host and is admitted.
fn joins(rt: &impl Abort, world: &mut World, depth: u8, most: u32) {
    let parent = depth.saturating_sub(1);
    assert_eq!(rt; goes_on(rt, world, Step::Child { parent }), Ok(()));
    delivers(rt, world, depth, parent, most);
    delivers(rt, world, parent, depth, most);
    for above in 0..depth {
        let below = depth.saturating_sub(above);
        delivers(rt, world, below, below.saturating_sub(1), most);
    }
    for above in 0..depth {
        delivers(rt, world, above, above.saturating_add(1), most);
    }
}

// A chain below the host. All but the last of its 127 enclaves are admitted after 260,064 deliveries. After 2,064 more the
// last one's register was got, and after 16 more the first got the admit.
fn chain(rt: &impl Abort, alloc: Global, most: u32) -> World {
    let mut world = host_world(rt, alloc, b"pool 4096\nhost 1 ns\n");
    for depth in 1..128u8 {
        joins(rt, &mut world, depth, most);
    }
    assert_eq!(rt; world.deliveries(), most);
    world
}

// How many words find room.
fn room(world: &World) -> u64 {
    MOST_WORDS.saturating_sub(world.journal().words())
}

// How many of the lines from that one on tell a delivery, and how many that something waits.
fn told(world: &World, from: usize) -> (u32, u32) {
    let (mut taken, mut waits) = (0u32, 0u32);
    for line in world.journal().as_slice().iter().skip(from) {
        match line {
            Line::Took { .. } => taken = taken.saturating_add(1),
            Line::Waiting { .. } => waits = waits.saturating_add(1),
            _ => {}
        }
    }
    (taken, waits)
}

// A limit by its name, or that a step is carried through.
#[derive(Clone, Copy, Debug, PartialEq, Eq)]
enum Answer {
    Done,
    Deliveries,
    Words,
    Another,
}

fn answer_of(done: Result<(), WorldFault>) -> Answer {
    match done {
        Ok(()) => Answer::Done,
        Err(WorldFault::Limit { which, number }) => match which {
            Which::Deliveries if number == MOST_DELIVERIES => Answer::Deliveries,
            Which::Words if u64::from(number) == MOST_WORDS => Answer::Words,
            _ => Answer::Another,
        },
        Err(WorldFault::Memory) => Answer::Another,
    }
}

// A step, its answer, and how many lines it adds and how many of them tell a delivery.
type Row = (Step, Answer, usize, u32);

const BYTE: Step = Step::Byte { from: 0, to: 1 };

const NO_SETTLE: Step = Step::Settle { most: 0 };

const SETTLE: Step = Step::Settle { most: 1 };

// After the last delivery that may be made, commands that make none are carried out. Only the line with which one that makes
// one begins is written, and nothing more from then on.
const AFTER_THE_LAST: [Row; 6] = [
    (BYTE, Answer::Done, 2, 0),
    (NO_SETTLE, Answer::Done, 2, 0),
    (SETTLE, Answer::Deliveries, 1, 0),
    (SETTLE, Answer::Deliveries, 0, 0),
    (BYTE, Answer::Deliveries, 0, 0),
    (Step::ShowPool, Answer::Deliveries, 0, 0),
];

// A settle makes the four deliveries that may still be made: its first line, the admit that goes down four times, and each
// time that it came, that it is passed on, and that its route is learned.
const BEFORE_THE_LAST: [Row; 2] = [
    (Step::Settle { most: 10 }, Answer::Deliveries, 17, 4),
    (Step::ShowPool, Answer::Deliveries, 0, 0),
];

// No word is left.
const WITHOUT_WORDS: [Row; 4] = [
    (Step::ShowPool, Answer::Words, 3182, 0),
    (Step::ShowPool, Answer::Words, 0, 0),
    (NO_SETTLE, Answer::Words, 0, 0),
    (BYTE, Answer::Words, 0, 0),
];

// Whether the step is answered so, and adds such lines, none of which says that something waits.
fn is_answered(rt: &impl Abort, world: &mut World, row: &Row) -> bool {
    let (step, wanted, lines, deliveries) = *row;
    let before = world.journal().len();
    let answer = answer_of(goes_on(rt, world, step));
    let (taken, waits) = told(world, before);
    answer == wanted
        && world.journal().len() == before.saturating_add(lines)
        && taken == deliveries
        && (waits == 0 || answer == Answer::Done)
}

fn all_are_answered(rt: &impl Abort, world: &mut World, rows: &[Row]) {
    for row in rows {
        assert!(rt; is_answered(rt, world, row), "at {:?}", row.0);
    }
}

#[test]
fn deliveries_end_at_their_limit(rt: HostRuntime) {
    let mut world = chain(&rt, rt.alloc(), MOST_DELIVERIES);
    all_are_answered(&rt, &mut world, &AFTER_THE_LAST);
    assert_eq!(rt; world.deliveries(), MOST_DELIVERIES);
    world.close();
    let mut world = chain(&rt, rt.alloc(), MOST_DELIVERIES - 4);
    all_are_answered(&rt, &mut world, &BEFORE_THE_LAST);
    assert_eq!(rt; world.deliveries(), MOST_DELIVERIES);
    world.close();
}

// A delivery for which no word finds room either passes the limit on deliveries.
#[test]
fn deliveries_are_asked_before_words(rt: HostRuntime) {
    let mut world = chain(&rt, rt.alloc(), MOST_DELIVERIES);
    for _ in 0..room(&world) / 12_500 {
        assert_eq!(rt; goes_on(&rt, &mut world, Step::ShowPool), Ok(()));
    }
    for _ in 0..room(&world).saturating_sub(8) / 5 {
        assert_eq!(rt; goes_on(&rt, &mut world, NO_SETTLE), Ok(()));
    }
    let last = if room(&world) == 12 { BYTE } else { NO_SETTLE };
    assert_eq!(rt; goes_on(&rt, &mut world, last), Ok(()));
    assert!(rt; room(&world) >= 3 && room(&world) < 7);
    let answer = answer_of(goes_on(&rt, &mut world, SETTLE));
    assert_eq!(rt; answer, Answer::Deliveries);
    assert!(rt; room(&world) < 4);
    world.close();
}

// Each time that the pool is shown, 4,097 lines of 12,293 words are written, the host having two blocks. The last time 3,181
// blocks find room.
#[test]
fn a_full_journal_stays_full(rt: HostRuntime) {
    let mut world = host_world(&rt, rt.alloc(), b"pool 4096\nhost 2 ns\n");
    for _ in 0..1364 {
        assert_eq!(rt; goes_on(&rt, &mut world, Step::ShowPool), Ok(()));
    }
    assert_eq!(rt; world.journal().words(), 16_767_668);
    all_are_answered(&rt, &mut world, &WITHOUT_WORDS);
    assert_eq!(rt; world.journal().words(), MOST_WORDS);
    assert_eq!(rt; world.journal().len(), 5_591_494);
    assert_eq!(rt; world.deliveries(), 0);
    world.close();
}

// A chain of 256 enclaves. The boot of enclave e takes 2 e + 2 deliveries.
fn chain_text(alloc: Global) -> Result<Vec<u8>, AllocError> {
    let mut text = Vec::from_slice(alloc, b"pool 256\nhost 1 ns\n")?;
    for parent in 0..255u64 {
        text.extend_from_slice(b"boot cokernel under ")?;
        digits(&mut text, parent)?;
        text.extend_from_slice(b" blocks 1\nsettle 10000\n")?;
    }
    Ok(text)
}

#[test]
fn no_boots_make_the_most_deliveries(rt: HostRuntime) -> Result<(), AllocError> {
    let text = chain_text(rt.alloc())?;
    let (world, whole) = world_after(rt.alloc(), &text, 16_000_000)?;
    let (made, lines) = (world.deliveries(), world.journal().len());
    world.close();
    assert!(rt; whole);
    assert_eq!(rt; made, 65_790);
    assert_eq!(rt; lines, 264_184);
    Ok(())
}
