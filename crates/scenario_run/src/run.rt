// All commands of a scenario in memory.
ghost use Rattle.std.specs.Prelude.{◌≡◌, ◌≤◌, ◌<◌, ◌^◌, ◌-◌, length};
ghost use Rattle.xm_edge.specs.Faults.{Rose};
ghost use Rattle.node_world.specs.World.{most_of, no_world};
ghost use Rattle.scenario_run.specs.Scenario.{line_says};
ghost use Rattle.scenario_run.specs.Run as spec;
ghost use Rattle.scenario_run.specs.Run.{LeavesIn};

use crate::Status;
use crate::execute::{Fault, execute};
use crate::laws::laws;
use crate::place::is_built;
use node_world::{Which, World};
use scenario_text::{SyntaxFault, first_line, place_ok, read_command};
use std::alloc::Global;
use xemem_language::Command;
use xm_edge::Sink;

// How a run ends at a fault.
fn status_of(fault: Fault) -> Status
    ensures { result ≡ spec.status_of fault }
{
    match fault {
        Fault::Memory => Status::Memory,
        Fault::Write => Status::WriteFault,
        Fault::Limit { which, number } => Status::Limit { which, number },
    }
}

fn limit(which: Which) -> Status
    ensures { result ≡ Status.Limit which (most_of which) }
{
    Status::Limit {
        which,
        number: which.most(),
    }
}

fn syntax(line: u32, fault: SyntaxFault) -> Status
    ensures { result ≡ Status.Syntax line fault }
{
    Status::Syntax { line, fault }
}

// What the line of that number says after so many commands, or how the run ends there.
fn judge(line: &[u8], number: u32, before: u32) -> Result<Option<Command>, Status>
    ensures { result ≡ spec.judged_status number (line_says before number line.now) }
{
    if number > Which::Lines.most() {
        return Err(limit(Which::Lines));
    }
    if line.len() > Which::LineBytes.most() as usize {
        return Err(limit(Which::LineBytes));
    }
    let command = match read_command(line) {
        Ok(Some(command)) => command,
        Ok(None) => return Ok(None),
        Err(fault) => return Err(syntax(number, fault)),
    };
    if !place_ok(before, &command) {
        return Err(syntax(number, SyntaxFault::Place));
    }
    if !is_built(&command) {
        return Err(Status::Unbuilt { line: number });
    }
    Ok(Some(command))
}

/// Runs the scenario's commands on a world and writes their journal.
pub fn run<K: Sink>(alloc: Global, bytes: &[u8], sink: &mut K, world: &mut World) -> Status
    requires fits { length bytes.now < 2 ^ 32 - 1 }
    requires fresh { world.old ≡ no_world }
    ensures leaves { LeavesIn (K.contents sink.old) (K.contents sink.new) result bytes.now world.new }
    ensures later { K.faults sink.old ≤ K.faults sink.new }
    ensures write { result ≡ Status.WriteFault → Rose (K.faults sink.old) (K.faults sink.new) }
{
    laws();
    let mut text = Vec::new(alloc);
    let mut rest = bytes;
    let mut number = 1u32;
    let mut before = 0u32;
    while !rest.is_empty() {
        let (line, after) = first_line(rest);
        let said = match judge(line, number, before) {
            Ok(said) => said,
            Err(status) => return status,
        };
        if let Some(command) = said {
            match execute(world, &command, &mut text, sink) {
                Ok(()) => before += 1,
                Err(fault) => return status_of(fault),
            }
        }
        rest = after;
        number += 1;
    }
    Status::Ok
}
