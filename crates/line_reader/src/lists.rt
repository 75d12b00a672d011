// Lists at the end of a line, and bytes in hex digits.
ghost use Rattle.std.specs.Prelude.{◌≡◌, ◌≤◌, ◌/◌, length, option_map, if◌then◌else◌, IfOk};
ghost use Rattle.std.specs.List.{list_any};
ghost use Rattle.std.specs.Result.{result_ok};
ghost use Rattle.hex.specs.Hex.{decode_of};
ghost use Rattle.line_reader.specs.Slots as slot;

use crate::cursor::Words;
use crate::laws::laws;
use std::alloc::{AllocError, Global};
use xemem_language::ByteList;
use xm_num::{BlockList, FrameList};

// The most bytes of a line.
const MOST_BYTES: usize = 32;

// A capital letter.
fn is_upper(byte: u8) -> bool
    ensures { result ≡ slot.is_upper byte }
{
    b'A' <= byte && byte <= b'Z'
}

// The first bytes of a buffer as a list.
fn listed(alloc: Global, bytes: &[u8]) -> Result<ByteList, AllocError>
    ensures { IfOk result (λ list. list ≡ bytes.now) }
{
    let mut list = ByteList::new(alloc);
    for byte in bytes {
        list.push(*byte)?;
    }
    Ok(list)
}

// Whether a letter of a word is a capital one.
fn has_upper(word: &[u8]) -> bool
    ensures { result ≡ list_any slot.is_upper word.now }
{
    word.iter().any(|byte| is_upper(*byte))
}

// Writes the bytes of hex digits, where the word has no other, and says whether it did.
fn decode(word: &[u8], room: &mut [u8]) -> bool
    requires { length room.old ≡ length word.now / 2 }
    ensures { (if result then Some room.new else None) ≡ result_ok (decode_of word.now) }
{
    hex::decode_to_slice(word, room).is_ok()
}

// The bytes of hex digits, where the word has no other.
fn decoded(alloc: Global, word: &[u8]) -> Result<Option<ByteList>, AllocError>
    requires { length word.now ≤ 64 }
    ensures { IfOk result (λ found. found ≡ result_ok (decode_of word.now)) }
{
    let mut buffer = [0; MOST_BYTES];
    let room = &mut buffer[..word.len() / 2];
    if !decode(word, room) {
        return Ok(None);
    }
    let list = listed(alloc, room)?;
    Ok(Some(list))
}

// The bytes that a word spells in hex digits, 1 to 32 of them, without capital letters.
#[tactic(auto, unfolding(crate::specs::Slots::bytes_of))]
fn bytes(alloc: Global, word: &[u8]) -> Result<Option<ByteList>, AllocError>
    ensures { IfOk result (λ found. found ≡ slot.bytes_of word.now) }
{
    if has_upper(word) {
        return Ok(None);
    }
    if word.len() < 2 || word.len() > 2 * MOST_BYTES {
        return Ok(None);
    }
    decoded(alloc, word)
}

impl<'a> Words<'a> {
    /// The next word as bytes in hex digits.
    #[tactic(auto, unfolding(crate::specs::Slots::next))]
    pub fn hex(&mut self, alloc: Global) -> Result<Option<ByteList>, AllocError>
        ensures { IfOk result (λ found. option_map (λ value. (value, self.new)) found ≡ slot.next slot.hex self.old) }
    {
        let Some(word) = self.next() else {
            return Ok(None);
        };
        bytes(alloc, word)
    }

    /// All words that are left as frames.
    pub fn frames(&mut self, alloc: Global) -> Result<Option<FrameList>, AllocError>
        ensures { IfOk result (λ found. option_map (λ values. (values, self.new)) found ≡ slot.all_read slot.frame self.old) }
    {
        laws();
        let mut frames = FrameList::new(alloc);
        while !self.is_empty() {
            let Some(frame) = self.frame() else {
                return Ok(None);
            };
            frames.push(frame)?;
        }
        Ok(Some(frames))
    }

    /// All words that are left as blocks.
    pub fn blocks(&mut self, alloc: Global) -> Result<Option<BlockList>, AllocError>
        ensures { IfOk result (λ found. option_map (λ values. (values, self.new)) found ≡ slot.all_read slot.block self.old) }
    {
        laws();
        let mut blocks = BlockList::new(alloc);
        while !self.is_empty() {
            let Some(block) = self.block() else {
                return Ok(None);
            };
            blocks.push(block)?;
        }
        Ok(Some(blocks))
    }
}
