// The world: its machine and its journal.
ghost use Rattle.std.specs.Prelude.{◌≡◌, ◌≤◌, ◌<◌, ◌^◌, ◌∷◌, ◌++◌, ◌↔◌, [], ℕ, ◌+◌, ◌-◌, length, true, false, None, Some, Ok, Err, OnOk, IfOk, IfSome};
ghost use Rattle.byte_link.specs.Channel.{waiting_bytes};
ghost use Rattle.xemem_language.specs.Ranges.{IsInRange};
ghost use Rattle.global_model.specs.Place.{may_stand};
ghost use Rattle.xemem_language.specs.declared.command.Command.TheVariants as commands;
ghost use Rattle.global_model.specs.Rest.{EndsSettle};
ghost use Rattle.global_model.specs.Facts.{facts_after, is_living_enclave};
ghost use Rattle.global_model.specs.Channels.{is_neighbour, waiting_in};
ghost use Rattle.global_model.specs.Due.{command_lines, journal_of, settle_from};
ghost use Rattle.global_model.specs.Journals.{deliveries_in, do_commands, is_delivery, onto, command_at};
ghost use Rattle.xemem_wire.specs.Spelling.{AreValid};
ghost use Rattle.node_world.specs.Appended.{words_by};
ghost use Rattle.node_machine.specs.Links.{sent_in};
ghost use Rattle.node_machine.specs.Machine.{after_command, lines_by};
ghost use Rattle.node_machine.specs.Ready.{IsReady, CanStep};
ghost use Rattle.node_world.specs.Shown.{IsNodeOf, IsFedBy};
ghost use Rattle.node_world.specs.World as spec;
ghost use Rattle.node_world.specs.World.{IsAlong, IsCut, IsHistoryOf, IsOfWorlds, IsShort, IsStopped};

use crate::count::{fitting, passed};
use crate::laws::laws;
use byte_link::Link;
use enclave_node::Node;
use node_machine::Machine;
use page_table::PageTable;
use std::alloc::{AllocError, Global};
use std::marker::Model;
use xemem_language::{Command, Line, Lines, word_count};
use xm_num::Enclave;

/// A limit of a run.
#[derive(Clone, Copy, Debug, PartialEq, Eq)]
pub enum Which {
    /// The bytes of a scenario.
    Scenario,
    /// The lines of a scenario, comments counted.
    Lines,
    /// The bytes of a line of a scenario.
    LineBytes,
    /// The deliveries of a run.
    Deliveries,
    /// The words of a journal.
    Words,
}

impl Which {
    /// The limit's number: the most that there may be.
    pub fn most(self) -> u32
        ensures { result ≡ spec.most_of self }
    {
        match self {
            Which::Scenario => 4_194_304,
            Which::Lines => 65_536,
            Which::LineBytes => 4096,
            Which::Deliveries => 262_144,
            Which::Words => 16_777_216,
        }
    }
}

/// Why a command wasn't carried through.
#[derive(Clone, Copy, Debug, PartialEq, Eq)]
pub enum WorldFault {
    /// The next line would pass a limit, which has this number.
    Limit { which: Which, number: u32 },
    /// Memory was wanting.
    Memory,
}

/// How far a world has come.
#[derive(Clone, Copy, Debug, PartialEq, Eq)]
pub enum Progress {
    /// Each step so far was carried through.
    Going,
    /// A line would have passed this limit.
    Full { which: Which },
    /// Memory was wanting.
    Failed,
}

/// The enclaves of a scenario, the channels between them, and the journal so far.
pub struct World {
    machine: Machine,
    journal: Lines,
    words: u64,
    deliveries: u32,
    progress: Progress,
}

impl Model for World {
    ghost use Rattle.node_world.specs.World.{WorldView, IsWorldKept};

    ghost Value = { WorldView };

    ghost view = { λ w. record { machine = w.machine; journal = w.journal; progress = w.progress } };

    ghost invariant = { λ w. IsWorldKept w.machine w.journal w.progress w.words w.deliveries };
}

fn limit(which: Which) -> WorldFault
    ensures { result ≡ WorldFault.Limit which (spec.most_of which) }
{
    WorldFault::Limit {
        which,
        number: which.most(),
    }
}

impl World {
    /// No pool and no host.
    pub fn new(alloc: Global) -> Result<World, AllocError>
        ensures { IfOk result (λ world. world ≡ spec.no_world) }
    {
        Ok(World {
            machine: Machine::new(alloc),
            journal: Lines::new(alloc),
            words: 0,
            deliveries: 0,
            progress: Progress::Going,
        })
    }

    /// Executes a command, whose numbers are in range, at its place. After `Limit` the journal has the lines that stand,
    /// and each later step answers the same. After `Memory` the world is good for nothing but `close`.
    pub fn step(&mut self, command: &Command) -> Result<(), WorldFault>
        requires place { self.old.progress ≡ Progress.Going → may_stand (length (do_commands self.old.journal)) command.now ≡ true }
        requires range { IsInRange command.now }
        // The journal is the one of the commands so far, and passes no limit.
        ensures ok { OnOk result (self.new.journal ≡ journal_of (do_commands self.old.journal ++ command.now ∷ [])) }
        ensures going { OnOk result ((self.old.progress ≡ Progress.Going) × (self.new.progress ≡ Progress.Going)) }
        ensures short { OnOk result (IsShort self.new.journal) }
        // A settle says that nothing waits exactly where nothing does.
        ensures rest { (most : ℕ) → command.now ≡ commands.Settle most
            → OnOk result (EndsSettle most (command_lines (facts_after self.old.journal) command.now) (facts_after self.new.journal)) }
        // The next line would pass a limit.
        ensures limit { (which : _) (number : ℕ) → result ≡ Err (WorldFault.Limit which number)
            → IsOfWorlds which × (number ≡ spec.most_of which) × (self.new.progress ≡ Progress.Full which)
            × (self.old.progress ≡ Progress.Going → IsCut which (do_commands self.old.journal) command.now self.new.journal) }
        ensures full { (which : _) → self.old.progress ≡ Progress.Full which
            → (result ≡ Err (WorldFault.Limit which (spec.most_of which))) × (self.new ≡ self.old) }
        // Want of memory.
        ensures memory { result ≡ Err WorldFault.Memory → self.new.progress ≡ Progress.Failed }
        ensures failed { self.old.progress ≡ Progress.Failed → (result ≡ Err WorldFault.Memory) × (self.new ≡ self.old) }
    {
        laws();
        match self.progress {
            Progress::Going => {}
            Progress::Full { which } => return Err(limit(which)),
            Progress::Failed => return Err(WorldFault::Memory),
        }
        // Until the command is carried through, the world counts as failed.
        self.progress = Progress::Failed;
        match self.execute(command) {
            Ok(None) => {
                self.progress = Progress::Going;
                Ok(())
            }
            Ok(Some(which)) => {
                self.progress = Progress::Full { which };
                Err(limit(which))
            }
            Err(AllocError) => Err(WorldFault::Memory),
        }
    }

    // Writes the lines of a command, up to the limit that is met.
    fn execute(&mut self, command: &Command) -> Result<Option<Which>, AllocError>
        requires failed { self.old.progress ≡ Progress.Failed }
        requires history { IsHistoryOf self.old.machine self.old.journal }
        requires place { may_stand (length (do_commands self.old.journal)) command.now ≡ true }
        requires range { IsInRange command.now }
        ensures journal { result ≡ Ok None → self.new.journal ≡ journal_of (do_commands self.old.journal ++ command.now ∷ []) }
        ensures history { result ≡ Ok None → IsHistoryOf self.new.machine self.new.journal }
        ensures cut { (which : _) → result ≡ Ok (Some which) → IsCut which (do_commands self.old.journal) command.now self.new.journal }
        ensures progress { self.new.progress ≡ self.old.progress }
    {
        laws();
        if let Some(which) = self.write_line(Line::Do { command: *command })? {
            return Ok(Some(which));
        }
        match *command {
            Command::Settle { most } => self.settle(most),
            _ => self.run(command),
        }
    }

    // Writes what a command of the machine does behind its `do` line.
    fn run(&mut self, command: &Command) -> Result<Option<Which>, AllocError>
        requires failed { self.old.progress ≡ Progress.Failed }
        requires ready { IsReady self.old.machine }
        requires can { CanStep self.old.machine command.now }
        requires valid { AreValid (sent_in (lines_by self.old.machine command.now)) }
        ensures written { result ≡ Ok None → self.new.journal ≡ self.old.journal ++ lines_by self.old.machine command.now }
        ensures short { result ≡ Ok None → IsShort self.new.journal }
        ensures machine { result ≡ Ok None → self.new.machine ≡ after_command self.old.machine command.now }
        ensures stopped { (which : _) → result ≡ Ok (Some which)
            → IsStopped which self.old.journal (lines_by self.old.machine command.now) self.new.journal }
        ensures progress { self.new.progress ≡ self.old.progress }
    {
        let fresh = self.machine.step(command)?;
        self.write(fresh)
    }

    // Writes at most so many deliveries, and how they end.
    fn settle(&mut self, most: u32) -> Result<Option<Which>, AllocError>
        requires failed { self.old.progress ≡ Progress.Failed }
        requires along { IsAlong self.old.machine self.old.journal }
        requires hand { command_at (onto self.old.journal []) ≡ Some (commands.Settle most) }
        ensures written { result ≡ Ok None → self.new.journal ≡ self.old.journal ++ settle_from most 0 (facts_after self.old.journal) }
        ensures along { result ≡ Ok None → IsAlong self.new.machine self.new.journal }
        ensures stopped { (which : _) → result ≡ Ok (Some which)
            → IsStopped which self.old.journal (settle_from most 0 (facts_after self.old.journal)) self.new.journal }
        ensures progress { self.new.progress ≡ self.old.progress }
    {
        laws();
        for made in 0..most {
            let Some(delivery) = self.machine.next_delivery() else {
                return self.write_line(Line::Settled { made });
            };
            if let Some(which) = self.run(&delivery)? {
                return Ok(Some(which));
            }
        }
        match self.machine.next_delivery() {
            Some(_) => self.write_line(Line::Waiting { made: most }),
            None => self.write_line(Line::Settled { made: most }),
        }
    }

    // Writes a line that tells no delivery, where it passes no limit.
    fn write_line(&mut self, line: Line) -> Result<Option<Which>, AllocError>
        requires failed { self.old.progress ≡ Progress.Failed }
        requires still { is_delivery line ≡ false }
        ensures written { result ≡ Ok None → self.new.journal ≡ self.old.journal ++ line ∷ [] }
        ensures stopped { (which : _) → result ≡ Ok (Some which) → IsStopped which self.old.journal (line ∷ []) self.new.journal }
        ensures machine { self.new.machine ≡ self.old.machine }
        ensures progress { self.new.progress ≡ self.old.progress }
    {
        if let Some(which) = passed(&line, self.words, self.deliveries) {
            return Ok(Some(which));
        }
        let words = word_count(&line);
        self.journal.push(line)?;
        self.words += words;
        Ok(None)
    }

    // Writes as many of the lines as pass no limit, and gives the limit that the next one would pass.
    fn write(&mut self, fresh: Lines) -> Result<Option<Which>, AllocError>
        requires failed { self.old.progress ≡ Progress.Failed }
        ensures written { result ≡ Ok None → self.new.journal ≡ self.old.journal ++ fresh }
        ensures short { result ≡ Ok None → IsShort self.new.journal }
        ensures stopped { (which : _) → result ≡ Ok (Some which) → IsStopped which self.old.journal fresh self.new.journal }
        ensures machine { self.new.machine ≡ self.old.machine }
        ensures progress { self.new.progress ≡ self.old.progress }
    {
        let mut fresh = fresh;
        let fit = fitting(fresh.as_slice(), self.words, self.deliveries);
        fresh.truncate(fit.count);
        self.journal.append(&mut fresh)?;
        self.machine.reuse(fresh);
        self.words = fit.words;
        self.deliveries = fit.deliveries;
        Ok(fit.stop)
    }

    /// All lines so far.
    pub fn journal(&self) -> &Lines
        ensures { result.now ≡ self.now.journal }
    {
        &self.journal
    }

    /// How many deliveries were made: the lines `took` and `end`.
    pub fn deliveries(&self) -> u32
        ensures { result ≡ deliveries_in self.now.journal }
    {
        self.deliveries
    }

    /// The node of a living enclave, where each step so far was carried through. It is seen as the view of its enclave by the
    /// journal, its decoders as what the journal says of its channels, and what it appended as the words of its lines there.
    pub fn node(&self, e: Enclave) -> Option<&Node<PageTable>>
        requires { self.now.progress ≡ Progress.Going }
        ensures some { IfSome result (λ node. IsNodeOf (facts_after self.now.journal) e.0 node.now) }
        ensures feeds { IfSome result (λ node. IsFedBy (facts_after self.now.journal) e.0 node.now) }
        ensures appended { IfSome result (λ node. node.now.appended ≡ words_by e.0 (onto self.now.journal [])) }
        ensures none { (result ≡ None) ↔ (is_living_enclave ((facts_after self.now.journal).enclave e.0) ≡ false) }
    {
        laws();
        self.machine.node(e)
    }

    /// The channel from an enclave to its neighbour, which lives, where each step so far was carried through. Its bytes are
    /// those that wait by the journal.
    pub fn link(&self, from: Enclave, to: Enclave) -> Option<&Link>
        requires { self.now.progress ≡ Progress.Going }
        ensures some { IfSome result (λ link. waiting_bytes link.now ≡ waiting_in (facts_after self.now.journal) from.0 to.0) }
        ensures none { (result ≡ None) ↔ (is_neighbour (facts_after self.now.journal) from.0 to.0 ≡ false) }
    {
        laws();
        self.machine.link(from, to)
    }

    /// Closes every node.
    pub fn close(self) {
        let World {
            machine,
            journal: _,
            words: _,
            deliveries: _,
            progress: _,
        } = self;
        machine.close();
    }
}
