// The top call.
ghost use Rattle.std.specs.Prelude.{◌≡◌, ◌≤◌, ◌↔◌, ◌⊎◌, ℕ, List, length, None, Some, IsTrue};
ghost use Rattle.std.specs.Io.KnownBytes.{Keeps};
ghost use Rattle.xm_edge.specs.Faults.{Rose};
ghost use Rattle.scenario_text.specs.Scenario.{TooMany, TooLong, Faulty, Unbuilt, most_lines, most_line_bytes};
ghost use Rattle.scenario_run.specs.Scenario.{scenario_of};
ghost use Rattle.global_model.specs.Due.{journal_of};
ghost use Rattle.node_world.specs.World.{IsOfWorlds, IsShort, most_of, no_world};
ghost use Rattle.scenario_run.specs.Main.{most, AsksRun, WritesHistory, StopsAtLine, StopsFull, StopsWriting, StopsForMemory, StopsAtLimit, StopsReading};
ghost use Rattle.scenario_run.specs.Run.{ending_status};

use crate::run::run;
use crate::{Status, Which};
use node_world::World;
use std::alloc::Global;
use xm_edge::{ReadAllFault, Sink, Source, read_all};

/// The most bytes of a scenario.
const MOST: u32 = 4_194_304;

// Whether the words ask for a run.
fn asks_run(words: &Vec<String>) -> bool
    ensures { IsTrue result ↔ AsksRun words.now.items }
{
    words.len() == 1 && words[0].as_str() == "run"
}

/// Carries out the words of the command line on a world on which no step was made. `run` executes the scenario that the
/// source gives, and writes its journal to the sink, each line with its line feed in one piece. All other words are
/// `Usage`. The caller closes the world, whatever the status is.
pub fn xemem_main<S: Source, K: Sink>(
    alloc: Global,
    words: &Vec<String>,
    source: &mut S,
    sink: &mut K,
    world: &mut World,
) -> Status
    requires fresh { world.old ≡ no_world }

    // The headline: for every scenario, the journal that is written is a lawful history.
    ensures headline { result ≡ Status.Ok
        → WritesHistory (S.left source.old) (S.left source.new) (K.contents sink.old) (K.contents sink.new) world.new }

    // Usage comes exactly where the words ask for no run, and then nothing is read, done or written.
    ensures usage { (result ≡ Status.Usage) ↔ (AsksRun words.now.items → ⊥) }
    ensures idle { result ≡ Status.Usage
        → Keeps (S.left source.old) (S.left source.new) × Keeps (K.contents sink.old) (K.contents sink.new) × (world.new ≡ world.old) }

    // The first line with which something is wrong, or whose command isn't built.
    ensures syntax { (line : ℕ) (fault : _) → result ≡ Status.Syntax line fault
        → StopsAtLine (record { line = line; stop = Faulty fault }) (S.left source.old) (S.left source.new) (K.contents sink.old) (K.contents sink.new) world.new }
    ensures unbuilt { (line : ℕ) → result ≡ Status.Unbuilt line
        → StopsAtLine (record { line = line; stop = Unbuilt }) (S.left source.old) (S.left source.new) (K.contents sink.old) (K.contents sink.new) world.new }

    // The first line that is one too many, or too long.
    ensures lines { (number : ℕ) → result ≡ Status.Limit Which.Lines number
        → (number ≡ most_lines) × (line : ℕ) × StopsAtLine (record { line = line; stop = TooMany }) (S.left source.old) (S.left source.new) (K.contents sink.old) (K.contents sink.new) world.new }
    ensures line_bytes { (number : ℕ) → result ≡ Status.Limit Which.LineBytes number
        → (number ≡ most_line_bytes) × (line : ℕ) × StopsAtLine (record { line = line; stop = TooLong }) (S.left source.old) (S.left source.new) (K.contents sink.old) (K.contents sink.new) world.new }

    // Too many bytes.
    ensures limit { (number : ℕ) → result ≡ Status.Limit Which.Scenario number
        → (number ≡ most) × StopsAtLimit (S.left source.old) (S.left source.new) (K.contents sink.old) (K.contents sink.new) × (world.new ≡ world.old) }

    // A line that would pass the most deliveries or the most words.
    ensures full { (which : _) (number : ℕ) → IsOfWorlds which → result ≡ Status.Limit which number
        → (number ≡ most_of which) × StopsFull which (S.left source.old) (S.left source.new) (K.contents sink.old) (K.contents sink.new) world.new }

    // A fault of reading or writing comes only where the count of that side rose, and no count falls.
    ensures read_fault { result ≡ Status.ReadFault
        → Rose (S.faults source.old) (S.faults source.new) × StopsReading (S.left source.old) (S.left source.new) (K.contents sink.old) (K.contents sink.new) × (world.new ≡ world.old) }
    ensures write_fault { result ≡ Status.WriteFault
        → Rose (K.faults sink.old) (K.faults sink.new) × StopsWriting (S.left source.old) (S.left source.new) (K.contents sink.old) (K.contents sink.new) }
    ensures later { (S.faults source.old ≤ S.faults source.new) × (K.faults sink.old ≤ K.faults sink.new) }

    // Want of memory.
    ensures memory { result ≡ Status.Memory
        → StopsForMemory (S.left source.old) (S.left source.new) (K.contents sink.old) (K.contents sink.new) world.old world.new }

    // Where nothing stands against it, the run ends as the scenario does, but for want of memory.
    ensures complete { (bytes : List ℕ) → AsksRun words.now.items → S.left source.old ≡ Some bytes → length bytes ≤ most
        → IsShort (journal_of (scenario_of bytes).commands)
        → (Rose (S.faults source.old) (S.faults source.new) → ⊥) → (Rose (K.faults sink.old) (K.faults sink.new) → ⊥)
        → (result ≡ ending_status (scenario_of bytes).ending) ⊎ (result ≡ Status.Memory) }
{
    if !asks_run(words) {
        return Status::Usage;
    }
    match read_all(alloc, source, MOST) {
        Ok(bytes) => run(alloc, &bytes, sink, world),
        Err(ReadAllFault::Read) => Status::ReadFault,
        Err(ReadAllFault::TooLong) => Status::Limit {
            which: Which::Scenario,
            number: MOST,
        },
        Err(ReadAllFault::Memory) => Status::Memory,
    }
}
