// The line that a text spells.
ghost use Rattle.std.specs.Prelude.{◌≡◌, option_map, IfOk};
ghost use Rattle.line_reader.specs.Lines as spec;
ghost use Rattle.line_reader.specs.Slots as slot;

use crate::cursor::Words;
use crate::fixed_lines::fixed_line;
use crate::records::sent;
use std::alloc::{AllocError, Global};
use xemem_language::Line;

// An enclave is born with the blocks that stand to the end.
#[tactic(auto, unfolding(crate::specs::Lines::born_form))]
fn born(alloc: Global, words: &mut Words) -> Result<Option<Line>, AllocError>
    ensures { IfOk result (λ found. option_map (λ line. (line, words.new)) found ≡ spec.born_form words.old) }
{
    let Some(enclave) = words.enclave() else {
        return Ok(None);
    };
    let Some(kind) = words.kind() else {
        return Ok(None);
    };
    let Some(parent) = words.enclave() else {
        return Ok(None);
    };
    let Some(ns) = words.mark() else {
        return Ok(None);
    };
    let Some(blocks) = words.blocks(alloc)? else {
        return Ok(None);
    };
    Ok(Some(Line::Born {
        enclave,
        kind,
        parent,
        ns,
        blocks,
    }))
}

// Own pages get the frames that stand to the end.
#[tactic(auto, unfolding(crate::specs::Lines::frames_form))]
fn allocated(alloc: Global, words: &mut Words) -> Result<Option<Line>, AllocError>
    ensures { IfOk result (λ found. option_map (λ line. (line, words.new)) found ≡ spec.frames_form words.old) }
{
    let Some(enclave) = words.enclave() else {
        return Ok(None);
    };
    let Some(pid) = words.pid() else {
        return Ok(None);
    };
    let Some(at) = words.page() else {
        return Ok(None);
    };
    let Some(frames) = words.frames(alloc)? else {
        return Ok(None);
    };
    Ok(Some(Line::Alloc {
        enclave,
        pid,
        at,
        frames,
    }))
}

// Waiting bytes of a channel.
#[tactic(auto, unfolding(crate::specs::Lines::bytes_form))]
fn waiting_bytes(alloc: Global, words: &mut Words) -> Result<Option<Line>, AllocError>
    ensures { IfOk result (λ found. option_map (λ line. (line, words.new)) found ≡ spec.bytes_form words.old) }
{
    let Some(from) = words.enclave() else {
        return Ok(None);
    };
    let Some(to) = words.enclave() else {
        return Ok(None);
    };
    let Some(at) = words.word32() else {
        return Ok(None);
    };
    let Some(bytes) = words.hex(alloc)? else {
        return Ok(None);
    };
    Ok(Some(Line::Bytes {
        from,
        to,
        at,
        bytes,
    }))
}

// All lines, those with lists first.
#[tactic(auto, unfolding(crate::specs::Lines::line_rows))]
fn any_line(alloc: Global, first: &[u8], words: &mut Words) -> Result<Option<Line>, AllocError>
    ensures { IfOk result (λ found. option_map (λ line. (line, words.new)) found ≡ slot.row_read spec.line_rows first.now words.old) }
{
    if first == b"born".as_slice() {
        born(alloc, words)
    } else if first == b"alloc".as_slice() {
        allocated(alloc, words)
    } else if first == b"sent".as_slice() {
        sent(alloc, words)
    } else if first == b"bytes".as_slice() {
        waiting_bytes(alloc, words)
    } else {
        Ok(fixed_line(first, words))
    }
}

/// The line that a text without its line feed spells, with exactly one space between the words, or none. The error is
/// want of memory for a list in the line.
#[tactic(auto, unfolding(crate::specs::Lines::line_of, crate::specs::Slots::next_word))]
pub fn read_line(alloc: Global, text: &[u8]) -> Result<Option<Line>, AllocError>
    ensures { IfOk result (λ found. found ≡ spec.text_line text.now) }
{
    let mut words = Words::new(text);
    let Some(first) = words.next() else {
        return Ok(None);
    };
    let Some(line) = any_line(alloc, first, &mut words)? else {
        return Ok(None);
    };
    if words.is_empty() {
        Ok(Some(line))
    } else {
        Ok(None)
    }
}
