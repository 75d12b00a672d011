// How a run ended, in numbers and words.
ghost use Rattle.std.specs.Prelude.{◌≡◌, ◌++◌, OnOk, OnErr};
ghost use Rattle.scenario_run.specs.Status.{exit_number_of, fault_text, limit_word, misfit_text, text_of_status};

use node_world::Which;
use scenario_text::{SyntaxFault, digits, text};
use std::alloc::AllocError;

/// How a run ended.
#[derive(Clone, Copy, Debug, PartialEq, Eq)]
pub enum Status {
    /// The scenario was run to its end.
    Ok,
    /// The words after the program's name ask for nothing that it does.
    Usage,
    /// Something is wrong with the line of this number, from 1.
    Syntax { line: u32, fault: SyntaxFault },
    /// The source failed.
    ReadFault,
    /// The sink failed.
    WriteFault,
    /// A limit was met, which is this number.
    Limit { which: Which, number: u32 },
    /// There was no memory left.
    Memory,
    /// The line with this number, from 1, spells a command that isn't built yet.
    Unbuilt { line: u32 },
}

/// The exit number of a status.
pub fn exit_number(status: &Status) -> u8
    ensures { result ≡ exit_number_of status.now }
{
    match status {
        Status::Ok => 0,
        Status::Usage => 1,
        Status::Syntax { .. } => 2,
        Status::ReadFault => 3,
        Status::WriteFault => 4,
        Status::Limit { .. } => 5,
        Status::Memory => 6,
        Status::Unbuilt { .. } => 8,
    }
}

fn limit_name(which: Which) -> &'static str
    ensures { result.now ≡ limit_word which }
{
    match which {
        Which::Scenario => "Scenario",
        Which::Lines => "Lines",
        Which::LineBytes => "LineBytes",
        Which::Deliveries => "Deliveries",
        Which::Words => "Words",
    }
}

#[tactic(auto, using(std::proofs::lemmas::List::append_assoc))]
fn print_limit(which: Which, most: u32, out: &mut Vec<u8>) -> Result<(), AllocError>
    ensures { OnOk result (out.new.items ≡ out.old.items ++ text_of_status (Status.Limit which most)) }
{
    text(out, b"limit ")?;
    text(out, limit_name(which).as_bytes())?;
    text(out, b" ")?;
    digits(out, u64::from(most))
}

// Appends a word's place, with words around it.
#[tactic(auto, using(std::proofs::lemmas::List::append_assoc))]
fn print_misfit(place: u8, what: &[u8], out: &mut Vec<u8>) -> Result<(), AllocError>
    ensures { OnOk result (out.new.items ≡ out.old.items ++ misfit_text place what.now) }
{
    text(out, b"word ")?;
    digits(out, u64::from(place))?;
    text(out, b" is not a ")?;
    text(out, what)?;
    text(out, b" here")
}

fn print_fault(fault: SyntaxFault, out: &mut Vec<u8>) -> Result<(), AllocError>
    ensures { OnOk result (out.new.items ≡ out.old.items ++ fault_text fault) }
{
    match fault {
        SyntaxFault::Word => text(out, b"unknown command"),
        SyntaxFault::Count => text(out, b"wrong number of words"),
        SyntaxFault::Keyword(place) => print_misfit(place, b"keyword", out),
        SyntaxFault::Number(place) => print_misfit(place, b"number", out),
        SyntaxFault::Place => text(out, b"command out of place"),
    }
}

#[tactic(auto, using(std::proofs::lemmas::List::append_assoc))]
fn print_syntax(line: u32, fault: SyntaxFault, out: &mut Vec<u8>) -> Result<(), AllocError>
    ensures { OnOk result (out.new.items ≡ out.old.items ++ text_of_status (Status.Syntax line fault)) }
{
    text(out, b"line ")?;
    digits(out, u64::from(line))?;
    text(out, b": ")?;
    print_fault(fault, out)
}

#[tactic(auto, using(std::proofs::lemmas::List::append_assoc))]
fn print_unbuilt(line: u32, out: &mut Vec<u8>) -> Result<(), AllocError>
    ensures { OnOk result (out.new.items ≡ out.old.items ++ text_of_status (Status.Unbuilt line)) }
{
    text(out, b"line ")?;
    digits(out, u64::from(line))?;
    text(out, b": not built yet")
}

// Appends the text of a status. For want of memory a part of it may stand.
fn print_status(status: &Status, out: &mut Vec<u8>) -> Result<(), AllocError>
    ensures { OnOk result (out.new.items ≡ out.old.items ++ text_of_status status.now) }
{
    match status {
        Status::Ok => Ok(()),
        Status::Usage => text(out, b"usage: xemem run | xemem load SEED CALLS"),
        Status::Syntax { line, fault } => print_syntax(*line, *fault, out),
        Status::ReadFault => text(out, b"read fault"),
        Status::WriteFault => text(out, b"write fault"),
        Status::Limit {
            which,
            number: most,
        } => print_limit(*which, *most, out),
        Status::Memory => text(out, b"out of memory"),
        Status::Unbuilt { line } => print_unbuilt(*line, out),
    }
}

/// Appends the text of a status, without a line feed. For want of memory the buffer stays as it was.
pub fn status_text(status: &Status, out: &mut Vec<u8>) -> Result<(), AllocError>
    ensures ok { OnOk result (out.new.items ≡ out.old.items ++ text_of_status status.now) }
    ensures err { OnErr result (out.new.items ≡ out.old.items) }
{
    let mut text = Vec::new(*out.allocator());
    print_status(status, &mut text)?;
    out.extend_from_slice(&text)?;
    Ok(())
}
