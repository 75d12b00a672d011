// The lines on which commands begin, by a table for each kind of command.
ghost use Rattle.std.specs.Prelude.{◌≡◌, ◌≤◌, ◌++◌, OnOk, OnErr};
ghost use Rattle.xemem_language.specs.declared.line.Line.TheVariants as lines;
ghost use Rattle.xemem_language.specs.Spelling.{line_text};
ghost use Rattle.line_printer.specs.Tables.{command_table_of};

use crate::item::Item;
use crate::row::row;
use std::alloc::AllocError;
use xemem_language::Command;

// The row on which a command with these words begins.
macro_rules! begin {
    ($out:expr $(, $item:expr)*) => {
        row!($out, "do" $(, $item)*)
    };
}

/// Appends the line on which a command begins. For want of memory the buffer stays as it was.
pub fn print_command(command: &Command, out: &mut Vec<u8>) -> Result<(), AllocError>
    ensures ok { OnOk result (out.new.items ≡ out.old.items ++ line_text (lines.Do command.now)) }
    ensures err { OnErr result (out.new.items ≡ out.old.items) }
{
    match command {
        Command::Pool { blocks } => begin!(out, "pool", *blocks),
        Command::Host { blocks, ns: false } => begin!(out, "host", *blocks),
        Command::Host { blocks, ns: true } => begin!(out, "host", *blocks, "ns"),
        Command::Boot {
            kind,
            parent,
            blocks,
            ns: false,
        } => begin!(out, "boot", *kind, "under", *parent, "blocks", *blocks),
        Command::Boot {
            kind,
            parent,
            blocks,
            ns: true,
        } => begin!(
            out, "boot", *kind, "under", *parent, "blocks", *blocks, "ns"
        ),
        Command::Deliver { from, to, count } => begin!(out, "deliver", *from, *to, *count),
        Command::Settle { most } => begin!(out, "settle", *most),
        Command::Kill { enclave, cut } => begin!(out, "kill", *enclave, "cut", *cut),
        Command::Stop { enclave } => begin!(out, "stop", *enclave),
        _ => process_command(command, out),
    }
}

// Commands on a process and its own pages.
fn process_command(command: &Command, out: &mut Vec<u8>) -> Result<(), AllocError>
    requires { 1 ≤ command_table_of command.now }
    ensures ok { OnOk result (out.new.items ≡ out.old.items ++ line_text (lines.Do command.now)) }
    ensures err { OnErr result (out.new.items ≡ out.old.items) }
{
    match command {
        Command::Proc { enclave, uid, gid } => begin!(out, "proc", *enclave, *uid, *gid),
        Command::Alloc {
            enclave,
            pid,
            at,
            pages,
        } => begin!(out, "alloc", *enclave, *pid, *at, *pages),
        Command::Free {
            enclave,
            pid,
            at,
            pages,
        } => begin!(out, "free", *enclave, *pid, *at, *pages),
        Command::Touch {
            enclave,
            pid,
            addr,
            want,
        } => begin!(out, "touch", *enclave, *pid, *addr, *want),
        Command::Exit { enclave, pid } => begin!(out, "exit", *enclave, *pid),
        _ => call_command(command, out),
    }
}

// The calls of a process.
fn call_command(command: &Command, out: &mut Vec<u8>) -> Result<(), AllocError>
    requires { 2 ≤ command_table_of command.now }
    ensures ok { OnOk result (out.new.items ≡ out.old.items ++ line_text (lines.Do command.now)) }
    ensures err { OnErr result (out.new.items ≡ out.old.items) }
{
    match command {
        Command::Make {
            enclave,
            pid,
            addr,
            size,
            mode,
        } => begin!(out, "make", *enclave, *pid, *addr, *size, Item::Mode(*mode)),
        Command::Remove {
            enclave,
            pid,
            segid,
        } => begin!(out, "remove", *enclave, *pid, *segid),
        Command::Get {
            enclave,
            pid,
            segid,
            access,
        } => begin!(out, "get", *enclave, *pid, *segid, *access),
        Command::Release { enclave, pid, apid } => begin!(out, "release", *enclave, *pid, *apid),
        Command::Attach {
            enclave,
            pid,
            apid,
            offset,
            size,
            addr,
        } => begin!(out, "attach", *enclave, *pid, *apid, *offset, *size, *addr),
        Command::Detach { enclave, pid, addr } => begin!(out, "detach", *enclave, *pid, *addr),
        _ => show_command(command, out),
    }
}

// What shall be shown.
fn show_command(command: &Command, out: &mut Vec<u8>) -> Result<(), AllocError>
    requires { 3 ≤ command_table_of command.now }
    ensures ok { OnOk result (out.new.items ≡ out.old.items ++ line_text (lines.Do command.now)) }
    ensures err { OnErr result (out.new.items ≡ out.old.items) }
{
    match command {
        Command::ShowMaps { enclave, pid } => begin!(out, "show", "maps", *enclave, *pid),
        Command::ShowRoutes { enclave } => begin!(out, "show", "routes", *enclave),
        Command::ShowPins { enclave } => begin!(out, "show", "pins", *enclave),
        Command::ShowLink { from, to } => begin!(out, "show", "link", *from, *to),
        Command::ShowPool => begin!(out, "show", "pool"),
        Command::ShowNames => begin!(out, "show", "names"),
        _ => unreachable!(),
    }
}
