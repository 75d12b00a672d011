// The text of a row: a line's words with one space between, and a line feed.
ghost use Rattle.std.specs.Prelude.{◌≡◌, ◌+◌, ◌%◌, ◌<◌, ◌≤◌, ◌∷◌, ◌++◌, [], map, decimal, vec_len, vec_capacity, OnOk, OnErr};
ghost use Rattle.hex.specs.Hex.{encode_lower};
ghost use Rattle.xemem_language.specs.Spelling.{spaced, digit_of, mode_word, frame_words, hex_words};
ghost use Rattle.line_printer.specs.Items.{IsBegunBy, item_words, row_text};

use crate::item::Item;
use itoa::Buffer;
use std::alloc::AllocError;
use xm_num::{Block, Frame};

/// Appends bytes. For want of memory nothing is appended.
pub fn text(out: &mut Vec<u8>, text: &[u8]) -> Result<(), AllocError>
    ensures ok { OnOk result (out.new.items ≡ out.old.items ++ text.now) }
    ensures err { OnErr result (out.new.items ≡ out.old.items) }
{
    out.extend_from_slice(text)
}

/// Appends the decimal digits of a number. For want of memory nothing is appended.
pub fn digits(out: &mut Vec<u8>, n: u64) -> Result<(), AllocError>
    ensures ok { OnOk result (out.new.items ≡ out.old.items ++ decimal n) }
    ensures err { OnErr result (out.new.items ≡ out.old.items) }
{
    let mut buffer = Buffer::new();
    text(out, buffer.format(n).as_bytes())
}

// Appends a space and a word. For want of memory the space may stand.
#[tactic(auto, using(crate::proofs::ItemLemmas::begun))]
fn word(out: &mut Vec<u8>, word: &[u8]) -> Result<(), AllocError>
    ensures ok { OnOk result (out.new.items ≡ out.old.items ++ spaced (word.now ∷ [])) }
    ensures err { OnErr result (IsBegunBy out.old.items out.new.items) }
{
    out.push(b' ')?;
    text(out, word)
}

// The byte of a digit.
fn digit(n: u64) -> u8
    requires { n < 10 }
    ensures { result ≡ 48 + n }
{
    b'0' + n as u8
}

// Appends the decimal digits of a number of at most three, for which there is room.
#[tactic(auto, using(crate::proofs::NumberLemmas::short))]
fn put_digits(out: &mut Vec<u8>, n: u64)
    requires short { n < 1000 }
    requires room { vec_len out.old + 3 ≤ vec_capacity out.old }
    ensures { out.new.items ≡ out.old.items ++ decimal n }
{
    if n < 10 {
        out.push_reserved(digit(n));
        return;
    }
    if n < 100 {
        out.push_reserved(digit(n / 10));
        out.push_reserved(digit(n % 10));
        return;
    }
    out.push_reserved(digit(n / 100));
    out.push_reserved(digit(n / 10 % 10));
    out.push_reserved(digit(n % 10));
}

// Appends a space and a number of more than three digits.
#[inline(never)]
fn long_number(out: &mut Vec<u8>, n: u64) -> Result<(), AllocError>
    ensures ok { OnOk result (out.new.items ≡ out.old.items ++ spaced (decimal n ∷ [])) }
    ensures err { OnErr result (IsBegunBy out.old.items out.new.items) }
{
    let mut buffer = Buffer::new();
    word(out, buffer.format(n).as_bytes())
}

// Appends a space and a number. Most are short, and their digits are put down at once.
fn number(out: &mut Vec<u8>, n: u64) -> Result<(), AllocError>
    ensures ok { OnOk result (out.new.items ≡ out.old.items ++ spaced (decimal n ∷ [])) }
    ensures err { OnErr result (IsBegunBy out.old.items out.new.items) }
{
    if n > 999 {
        return long_number(out, n);
    }
    out.reserve(4)?;
    out.push_reserved(b' ');
    put_digits(out, n);
    Ok(())
}

// The last octal digit of a number.
fn octal(n: u16) -> u8
    ensures { result ≡ digit_of (n % 8) }
{
    b'0' + (n % 8) as u8
}

// Appends a space and a mode.
fn mode_digits(out: &mut Vec<u8>, mode: u16) -> Result<(), AllocError>
    ensures ok { OnOk result (out.new.items ≡ out.old.items ++ spaced (mode_word mode ∷ [])) }
    ensures err { OnErr result (IsBegunBy out.old.items out.new.items) }
{
    let digits = [b'0', octal(mode / 64), octal(mode / 8), octal(mode)];
    word(out, &digits)
}

// Appends the numbers of frames, a space before each.
#[tactic(auto, using(crate::proofs::ItemLemmas::begun))]
fn frames(out: &mut Vec<u8>, frames: &[Frame]) -> Result<(), AllocError>
    ensures ok { OnOk result (out.new.items ≡ out.old.items ++ spaced (frame_words frames.now)) }
    ensures err { OnErr result (IsBegunBy out.old.items out.new.items) }
{
    for frame in frames {
        number(out, u64::from(frame.0))?;
    }
    Ok(())
}

// Appends the numbers of blocks, a space before each.
#[tactic(auto, using(crate::proofs::ItemLemmas::begun))]
fn blocks(out: &mut Vec<u8>, blocks: &[Block]) -> Result<(), AllocError>
    ensures ok { OnOk result (out.new.items ≡ out.old.items ++ spaced (map (λ b. decimal b.0) blocks.now)) }
    ensures err { OnErr result (IsBegunBy out.old.items out.new.items) }
{
    for block in blocks {
        number(out, u64::from(block.0))?;
    }
    Ok(())
}

// Appends the two digits of a byte. For want of memory nothing is appended.
fn hex_byte(out: &mut Vec<u8>, byte: u8) -> Result<(), AllocError>
    ensures ok { OnOk result (out.new.items ≡ out.old.items ++ encode_lower (byte ∷ [])) }
    ensures err { OnErr result (out.new.items ≡ out.old.items) }
{
    let mut pair = [0; 2];
    if hex::encode_to_slice([byte], &mut pair).is_err() {
        unreachable!()
    }
    text(out, &pair)
}

// Appends the digits of bytes.
#[tactic(auto, using(crate::proofs::ItemLemmas::begun, crate::proofs::ItemLemmas::hex_more), unfolding(hex::specs::Hex::encode_with))]
fn hex_digits(out: &mut Vec<u8>, bytes: &[u8]) -> Result<(), AllocError>
    ensures ok { OnOk result (out.new.items ≡ out.old.items ++ encode_lower bytes.now) }
    ensures err { OnErr result (IsBegunBy out.old.items out.new.items) }
{
    for byte in bytes {
        hex_byte(out, *byte)?;
    }
    Ok(())
}

// Appends a space and the digits of bytes, where there are any.
#[tactic(auto, using(crate::proofs::ItemLemmas::begun))]
fn hex_word(out: &mut Vec<u8>, bytes: &[u8]) -> Result<(), AllocError>
    ensures ok { OnOk result (out.new.items ≡ out.old.items ++ spaced (hex_words bytes.now)) }
    ensures err { OnErr result (IsBegunBy out.old.items out.new.items) }
{
    if bytes.is_empty() {
        return Ok(());
    }
    out.push(b' ')?;
    hex_digits(out, bytes)
}

// Appends the words of an item, a space before each.
#[inline(always)]
fn item_text(out: &mut Vec<u8>, item: &Item) -> Result<(), AllocError>
    ensures ok { OnOk result (out.new.items ≡ out.old.items ++ spaced (item_words item.now)) }
    ensures err { OnErr result (IsBegunBy out.old.items out.new.items) }
{
    match item {
        Item::Word(text) => word(out, text.as_bytes()),
        Item::Number(n) => number(out, *n),
        Item::Mode(mode) => mode_digits(out, *mode),
        Item::Frames(list) => frames(out, list),
        Item::Blocks(list) => blocks(out, list),
        Item::Hex(bytes) => hex_word(out, bytes),
    }
}

/// What stands in a row behind its first word: nothing, or an item and what stands behind it. The compiler knows which
/// items a row has, so that it spells them without a loop.
pub trait Behind {
    ghost use Rattle.std.specs.Prelude.{ℕ, List};

    ghost words: { Self → List (List ℕ) };

    // Appends the words, a space before each.
    fn append(&self, out: &mut Vec<u8>) -> Result<(), AllocError>
        ensures ok { OnOk result (out.new.items ≡ out.old.items ++ spaced (words self.now)) }
        ensures err { OnErr result (IsBegunBy out.old.items out.new.items) };
}

impl Behind for () {
    ghost words = { λ _. [] };

    #[inline(always)]
    fn append(&self, out: &mut Vec<u8>) -> Result<(), AllocError> {
        let _ = out;
        Ok(())
    }
}

impl<B: Behind> Behind for (Item<'_>, B) {
    ghost words = { λ items. item_words items.0 ++ B.words items.1 };

    #[inline(always)]
    fn append(&self, out: &mut Vec<u8>) -> Result<(), AllocError> {
        item_text(out, &self.0)?;
        self.1.append(out)
    }
}

// Appends a row. For want of memory a part of it may stand.
#[inline(always)]
#[tactic(auto, using(crate::proofs::ItemLemmas::begun, crate::proofs::ItemLemmas::join_is))]
fn append_row<B: Behind>(out: &mut Vec<u8>, first: &str, behind: &B) -> Result<(), AllocError>
    ensures ok { OnOk result (out.new.items ≡ out.old.items ++ row_text first.now (B.words behind.now)) }
    ensures err { OnErr result (IsBegunBy out.old.items out.new.items) }
{
    text(out, first.as_bytes())?;
    behind.append(out)?;
    text(out, b"\n")
}

/// Appends a first word and what stands behind it, with one space between, and a line feed. For want of memory nothing
/// is appended.
#[inline(always)]
pub fn print_row<B: Behind>(out: &mut Vec<u8>, first: &str, behind: &B) -> Result<(), AllocError>
    ensures ok { OnOk result (out.new.items ≡ out.old.items ++ row_text first.now (B.words behind.now)) }
    ensures err { OnErr result (out.new.items ≡ out.old.items) }
{
    let start = out.len();
    let appended = append_row(out, first, behind);
    if appended.is_err() {
        out.truncate(start);
    }
    appended
}

// A row whose items are made of the fields that they spell.
macro_rules! row {
    (@behind) => {
        ()
    };
    (@behind $item:expr $(, $more:expr)*) => {
        ($crate::item::Item::from($item), row!(@behind $($more),*))
    };
    ($out:expr, $first:literal $(, $item:expr)*) => {
        $crate::row::print_row($out, $first, &row!(@behind $($item),*))
    };
}

pub(crate) use row;
