// Journal lines as text, by a table for each kind of line.
ghost use Rattle.std.specs.Prelude.{◌≡◌, ◌≤◌, ◌++◌, OnOk, OnErr};
ghost use Rattle.xemem_language.specs.Spelling.{line_text};
ghost use Rattle.line_printer.specs.Tables.{table_of};

use crate::item::Item;
use crate::names::ns_mark;
use crate::print_command::print_command;
use crate::print_record::sent;
use crate::row::row;
use std::alloc::AllocError;
use xemem_language::Line;

/// Appends the text of a line, with its line feed. For want of memory the buffer stays as it was.
pub fn print_line(line: &Line, out: &mut Vec<u8>) -> Result<(), AllocError>
    ensures ok { OnOk result (out.new.items ≡ out.old.items ++ line_text line.now) }
    ensures err { OnErr result (out.new.items ≡ out.old.items) }
{
    match line {
        Line::Do { command } => print_command(command, out),
        Line::Refused { cause } => row!(out, "refused", *cause),
        Line::Sent { from, to, rec } => sent(*from, *to, rec, out),
        _ => channel_row(line, out),
    }
}

// What goes over channels, and what waits there.
fn channel_row(line: &Line, out: &mut Vec<u8>) -> Result<(), AllocError>
    requires { 1 ≤ table_of line.now }
    ensures ok { OnOk result (out.new.items ≡ out.old.items ++ line_text line.now) }
    ensures err { OnErr result (out.new.items ≡ out.old.items) }
{
    match line {
        Line::Took { from, to, count } => row!(out, "took", *from, *to, *count),
        Line::Idle { from, to } => row!(out, "idle", *from, *to),
        Line::Got { from, to } => row!(out, "got", *from, *to),
        Line::End { from, to, torn } => row!(out, "end", *from, *to, *torn),
        Line::Dropped { enclave } => row!(out, "drop", *enclave),
        Line::Bytes {
            from,
            to,
            at,
            bytes,
        } => row!(out, "bytes", *from, *to, *at, Item::Hex(bytes.as_slice())),
        _ => way_row(line, out),
    }
}

// What enclaves learn of ways, and the frames that monitors give to guests.
fn way_row(line: &Line, out: &mut Vec<u8>) -> Result<(), AllocError>
    requires { 2 ≤ table_of line.now }
    ensures ok { OnOk result (out.new.items ≡ out.old.items ++ line_text line.now) }
    ensures err { OnErr result (out.new.items ≡ out.old.items) }
{
    match line {
        Line::Asked { enclave, by } => row!(out, "asked", *enclave, *by),
        Line::Way { enclave, over } => row!(out, "way", *enclave, *over),
        Line::Back { enclave, of, over } => row!(out, "back", *enclave, *of, *over),
        Line::Route { enclave, of, over } => row!(out, "route", *enclave, *of, *over),
        Line::Gmap {
            monitor,
            guest,
            owner,
            call,
            first,
        } => row!(out, "gmap", *monitor, *guest, *owner, *call, *first),
        Line::Gdrop {
            monitor,
            guest,
            call,
        } => row!(out, "gdrop", *monitor, *guest, *call),
        _ => call_row(line, out),
    }
}

// What calls do at their own enclave and at the name server.
fn call_row(line: &Line, out: &mut Vec<u8>) -> Result<(), AllocError>
    requires { 3 ≤ table_of line.now }
    ensures ok { OnOk result (out.new.items ≡ out.old.items ++ line_text line.now) }
    ensures err { OnErr result (out.new.items ≡ out.old.items) }
{
    match line {
        Line::Issue { enclave, pid, call } => row!(out, "issue", *enclave, *pid, *call),
        Line::Drew {
            enclave,
            call,
            segid,
        } => row!(out, "drew", *enclave, *call, *segid),
        Line::Named {
            enclave,
            call,
            segid,
        } => row!(out, "named", *enclave, *call, *segid),
        Line::Unnamed { segid } => row!(out, "unnamed", *segid),
        Line::Map {
            enclave,
            call,
            page,
        } => row!(out, "map", *enclave, *call, *page),
        Line::Unmap { enclave, call } => row!(out, "unmap", *enclave, *call),
        Line::Release { enclave, call } => row!(out, "release", *enclave, *call),
        Line::Remove { enclave, segid } => row!(out, "remove", *enclave, *segid),
        Line::Undo { enclave, call } => row!(out, "undo", *enclave, *call),
        Line::Closed { enclave, call } => row!(out, "closed", *enclave, *call),
        _ => owner_row(line, out),
    }
}

// What is granted, pinned or refused for the call of another enclave.
fn owner_row(line: &Line, out: &mut Vec<u8>) -> Result<(), AllocError>
    requires { 4 ≤ table_of line.now }
    ensures ok { OnOk result (out.new.items ≡ out.old.items ++ line_text line.now) }
    ensures err { OnErr result (out.new.items ≡ out.old.items) }
{
    match line {
        Line::Grant {
            owner,
            enclave,
            call,
            segid,
            access,
        } => row!(out, "grant", *owner, *enclave, *call, *segid, *access),
        Line::Deny {
            at,
            enclave,
            call,
            cause,
        } => row!(out, "deny", *at, *enclave, *call, *cause),
        Line::Pin {
            owner,
            enclave,
            call,
        } => row!(out, "pin", *owner, *enclave, *call),
        Line::Unpin {
            owner,
            enclave,
            call,
        } => row!(out, "unpin", *owner, *enclave, *call),
        Line::Ungrant {
            owner,
            enclave,
            call,
        } => row!(out, "ungrant", *owner, *enclave, *call),
        _ => answer_row(line, out),
    }
}

// How calls are answered.
fn answer_row(line: &Line, out: &mut Vec<u8>) -> Result<(), AllocError>
    requires { 5 ≤ table_of line.now }
    ensures ok { OnOk result (out.new.items ≡ out.old.items ++ line_text line.now) }
    ensures err { OnErr result (out.new.items ≡ out.old.items) }
{
    match line {
        Line::AnswerSegid {
            enclave,
            pid,
            call,
            segid,
        } => row!(out, "answer", *enclave, *pid, *call, "segid", *segid),
        Line::AnswerApid {
            enclave,
            pid,
            call,
            apid,
            pages,
        } => row!(
            out, "answer", *enclave, *pid, *call, "apid", *apid, "pages", *pages
        ),
        Line::AnswerAddr {
            enclave,
            pid,
            call,
            addr,
        } => row!(out, "answer", *enclave, *pid, *call, "addr", *addr),
        Line::AnswerRefused {
            enclave,
            pid,
            call,
            cause,
        } => row!(out, "answer", *enclave, *pid, *call, "refused", *cause),
        _ => process_row(line, out),
    }
}

// Processes and their own pages.
fn process_row(line: &Line, out: &mut Vec<u8>) -> Result<(), AllocError>
    requires { 6 ≤ table_of line.now }
    ensures ok { OnOk result (out.new.items ≡ out.old.items ++ line_text line.now) }
    ensures err { OnErr result (out.new.items ≡ out.old.items) }
{
    match line {
        Line::Proc {
            enclave,
            pid,
            uid,
            gid,
        } => row!(out, "proc", *enclave, *pid, *uid, *gid),
        Line::Alloc {
            enclave,
            pid,
            at,
            frames,
        } => row!(out, "alloc", *enclave, *pid, *at, frames.as_slice()),
        Line::Free {
            enclave,
            pid,
            at,
            pages,
        } => row!(out, "free", *enclave, *pid, *at, *pages),
        Line::Touched {
            enclave,
            pid,
            page,
            frame,
        } => row!(out, "touched", *enclave, *pid, *page, *frame),
        Line::Exit { enclave, pid } => row!(out, "exit", *enclave, *pid),
        _ => enclave_row(line, out),
    }
}

// How enclaves are born and end, and how a settling ends.
fn enclave_row(line: &Line, out: &mut Vec<u8>) -> Result<(), AllocError>
    requires { 7 ≤ table_of line.now }
    ensures ok { OnOk result (out.new.items ≡ out.old.items ++ line_text line.now) }
    ensures err { OnErr result (out.new.items ≡ out.old.items) }
{
    match line {
        Line::Born {
            enclave,
            kind,
            parent,
            ns,
            blocks,
        } => row!(
            out,
            "born",
            *enclave,
            *kind,
            *parent,
            ns_mark(*ns),
            blocks.as_slice()
        ),
        Line::Told { enclave, of } => row!(out, "told", *enclave, *of),
        Line::Admitted { enclave } => row!(out, "admitted", *enclave),
        Line::Killed { enclave, cut } => row!(out, "killed", *enclave, *cut),
        Line::Stopped { enclave } => row!(out, "stopped", *enclave),
        Line::Held { enclave } => row!(out, "held", *enclave),
        Line::Heard { enclave, of } => row!(out, "heard", *enclave, *of),
        Line::Confirmed { of, by } => row!(out, "confirmed", *of, *by),
        Line::Unheld { enclave } => row!(out, "unheld", *enclave),
        Line::Settled { made } => row!(out, "settled", *made),
        Line::Waiting { made } => row!(out, "waiting", *made),
        _ => shown_row(line, out),
    }
}

// What is shown, but for the bytes of channels.
fn shown_row(line: &Line, out: &mut Vec<u8>) -> Result<(), AllocError>
    requires { 8 ≤ table_of line.now }
    ensures ok { OnOk result (out.new.items ≡ out.old.items ++ line_text line.now) }
    ensures err { OnErr result (out.new.items ≡ out.old.items) }
{
    match line {
        Line::Page {
            enclave,
            pid,
            page,
            frame,
            access,
        } => row!(out, "page", *enclave, *pid, *page, *frame, *access),
        Line::AtWay { enclave, over } => row!(out, "at", *enclave, "way", *over),
        Line::AtWayOwn { enclave } => row!(out, "at", *enclave, "way", "own"),
        Line::AtWayNone { enclave } => row!(out, "at", *enclave, "way", "none"),
        Line::AtRoute { enclave, of, over } => row!(out, "at", *enclave, "route", *of, *over),
        Line::AtPin {
            owner,
            enclave,
            call,
            segid,
            offset,
            pages,
        } => row!(
            out, "at", *owner, "pin", *enclave, *call, *segid, *offset, *pages
        ),
        Line::Name { segid, owner } => row!(out, "name", *segid, *owner),
        Line::BlockFree { block } => row!(out, "block", *block, "free"),
        Line::BlockLent { block, enclave } => row!(out, "block", *block, "lent", *enclave),
        Line::BlockHeld { block, enclave } => row!(out, "block", *block, "held", *enclave),
        _ => unreachable!(),
    }
}
