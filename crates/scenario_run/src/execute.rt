// One command: its step, and its lines written.
ghost use Rattle.std.specs.Prelude.{◌≡◌, ◌≤◌, ◌<◌, ◌++◌, ◌∷◌, [], true, Err, OnOk, OnErr, IfErr, length, drop};
ghost use Rattle.std.specs.Io.KnownBytes.{Appends};
ghost use Rattle.xm_edge.specs.Faults.{HasCause, Rose};
ghost use Rattle.xm_edge.specs.Whole.{AppendsFront};
ghost use Rattle.global_model.specs.Place.{may_stand};
ghost use Rattle.xemem_language.specs.Ranges.{IsInRange};
ghost use Rattle.global_model.specs.Journals.{do_commands};
ghost use Rattle.xemem_language.specs.Spelling.{text_of};
ghost use Rattle.scenario_run.specs.Run.{IsGoing, Writes, FaultLeaves, LinesLeave};

use crate::laws::laws;
use crate::print::print_lines;
use memchr::memchr;
use node_world::{Which, World, WorldFault};
use xemem_language::{Command, Lines};
use xm_edge::{Sink, WriteFailed, write_all};

/// Why a command wasn't carried through.
#[derive(Clone, Copy, Debug, PartialEq, Eq)]
pub enum Fault {
    /// Memory was wanting. Nothing of the command was written.
    Memory,
    /// A write failed.
    Write,
    /// Its next line would pass a limit, which is this number. The lines before it were written.
    Limit { which: Which, number: u32 },
}

// How many bytes the first line has with its line feed, or all of them where there is none.
fn piece_length(text: &[u8]) -> usize
    requires { 0 < length text.now }
    ensures some { 0 < result }
    ensures within { result ≤ length text.now }
{
    match memchr(b'\n', text) {
        Some(at) => at + 1,
        None => text.len(),
    }
}

// Writes a text, each line with its line feed in one piece.
fn write_lines<K: Sink>(sink: &mut K, text: &[u8]) -> Result<(), WriteFailed>
    ensures ok { OnOk result (Appends (K.contents sink.old) (K.contents sink.new) text.now) }
    ensures err { OnErr result (AppendsFront (K.contents sink.old) (K.contents sink.new) text.now) }
    ensures cause { HasCause (K.faults sink.old) (K.faults sink.new) result }
{
    let mut at = 0;
    while at < text.len() {
        let end = at + piece_length(&text[at..]);
        write_all(sink, &text[at..end])?;
        at = end;
    }
    Ok(())
}

// Writes the lines of a journal from that one on. They are printed into `text` first, whose bytes are lost.
fn write_from<K: Sink>(
    journal: &Lines,
    from: usize,
    text: &mut Vec<u8>,
    sink: &mut K,
) -> Result<(), Fault>
    requires { from ≤ length journal.now }
    ensures written { OnOk result (Appends (K.contents sink.old) (K.contents sink.new) (text_of (drop from journal.now))) }
    ensures failed { IfErr result (LinesLeave (K.contents sink.old) (K.contents sink.new) (drop from journal.now)) }
    ensures later { K.faults sink.old ≤ K.faults sink.new }
    ensures kept { OnOk result (K.faults sink.new ≡ K.faults sink.old) }
    ensures write { result ≡ Err Fault.Write → Rose (K.faults sink.old) (K.faults sink.new) }
{
    text.clear();
    if print_lines(&journal.as_slice()[from..], text).is_err() {
        return Err(Fault::Memory);
    }
    if write_lines(sink, text).is_err() {
        return Err(Fault::Write);
    }
    Ok(())
}

/// Executes a command on a world and writes its lines. They are printed into `text` first, whose bytes are lost.
pub fn execute<K: Sink>(
    world: &mut World,
    command: &Command,
    text: &mut Vec<u8>,
    sink: &mut K,
) -> Result<(), Fault>
    requires going { IsGoing world.old }
    requires place { may_stand (length (do_commands world.old.journal)) command.now ≡ true }
    requires range { IsInRange command.now }
    ensures going { OnOk result (IsGoing world.new) }
    ensures commands { OnOk result (do_commands world.new.journal ≡ do_commands world.old.journal ++ command.now ∷ []) }
    ensures written { OnOk result (Writes (K.contents sink.old) (K.contents sink.new) world.old.journal world.new.journal) }
    ensures failed { IfErr result (FaultLeaves (K.contents sink.old) (K.contents sink.new) world.old command.now world.new) }
    ensures later { K.faults sink.old ≤ K.faults sink.new }
    ensures kept { OnOk result (K.faults sink.new ≡ K.faults sink.old) }
    ensures write { result ≡ Err Fault.Write → Rose (K.faults sink.old) (K.faults sink.new) }
{
    laws();
    let before = world.journal().len();
    match world.step(command) {
        Ok(()) => write_from(world.journal(), before, text, sink),
        Err(WorldFault::Limit { which, number }) => {
            write_from(world.journal(), before, text, sink)?;
            Err(Fault::Limit { which, number })
        }
        Err(WorldFault::Memory) => Err(Fault::Memory),
    }
}
