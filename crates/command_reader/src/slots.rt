// What the word at a place of a line stands for, or the fault of that place. Places count from 0.
ghost use Rattle.std.specs.Prelude.{◌≡◌, ◌^◌, ◌-◌, ◌<◌, ◌≤◌, length, true, Some, None, IfOk, if◌then◌else◌};
ghost use Rattle.std.specs.Str.{bytes_eq};
ghost use Rattle.std.specs.Str.Parse.{digits_value};
ghost use Rattle.xemem_language.specs.Ranges.{most32};
ghost use Rattle.command_reader.specs.Forms as form;
ghost use Rattle.command_reader.specs.Rows.{texts};

use crate::SyntaxFault;
use text_words::number_of;
use xm_num::{Access, Kind, Want};

/// The number at a place, in a range.
#[tactic(auto, unfolding(crate::specs::Forms::number))]
pub fn number(words: &[&[u8]], place: u8, low: u64, high: u64) -> Result<u64, SyntaxFault>
    requires { place < length words.now }
    ensures value { result ≡ form.number place low high (texts words.now) }
    ensures bounds { IfOk result (λ n. (low ≤ n) × (n ≤ high)) }
{
    match number_of(words[place as usize], low, high) {
        Some(number) => Ok(number),
        None => Err(SyntaxFault::Number(place)),
    }
}

/// The number of blocks at a place.
pub fn blocks(words: &[&[u8]], place: u8) -> Result<u16, SyntaxFault>
    requires { place < length words.now }
    ensures { result ≡ form.number place 1 4096 (texts words.now) }
{
    match number(words, place, 1, 4096) {
        Ok(number) => Ok(number as u16),
        Err(fault) => Err(fault),
    }
}

/// The number of an enclave at a place.
pub fn enclave(words: &[&[u8]], place: u8) -> Result<u16, SyntaxFault>
    requires { place < length words.now }
    ensures { result ≡ form.enclave place (texts words.now) }
{
    match number(words, place, 0, 65_534) {
        Ok(number) => Ok(number as u16),
        Err(fault) => Err(fault),
    }
}

/// The number of a process, a user or a group at a place.
pub fn id(words: &[&[u8]], place: u8) -> Result<u32, SyntaxFault>
    requires { place < length words.now }
    ensures { result ≡ form.id place (texts words.now) }
{
    match number(words, place, 0, 4_294_967_295) {
        Ok(number) => Ok(number as u32),
        Err(fault) => Err(fault),
    }
}

/// The address, the offset or the size at a place.
pub fn wide(words: &[&[u8]], place: u8) -> Result<u64, SyntaxFault>
    requires { place < length words.now }
    ensures { result ≡ form.wide place (texts words.now) }
{
    number(words, place, 0, u64::MAX)
}

/// The number of pages at a place.
pub fn pages(words: &[&[u8]], place: u8) -> Result<u32, SyntaxFault>
    requires { place < length words.now }
    ensures { result ≡ form.number place 1 4096 (texts words.now) }
{
    match number(words, place, 1, 4096) {
        Ok(number) => Ok(number as u32),
        Err(fault) => Err(fault),
    }
}

/// The number of deliveries or of bytes at a place, of which there is at least one.
pub fn count(words: &[&[u8]], place: u8) -> Result<u32, SyntaxFault>
    requires { place < length words.now }
    ensures { result ≡ form.number place 1 most32 (texts words.now) }
{
    match number(words, place, 1, 4_294_967_295) {
        Ok(number) => Ok(number as u32),
        Err(fault) => Err(fault),
    }
}

/// The segid or the apid at a place, which has 63 bits.
pub fn name(words: &[&[u8]], place: u8) -> Result<u64, SyntaxFault>
    requires { place < length words.now }
    ensures value { result ≡ form.name place (texts words.now) }
    ensures bounds { IfOk result (λ n. n < 2 ^ 63) }
{
    number(words, place, 0, 9_223_372_036_854_775_807)
}

/// The own page at a place.
pub fn own_page(words: &[&[u8]], place: u8) -> Result<u32, SyntaxFault>
    requires { place < length words.now }
    ensures { result ≡ form.number place 1 16777215 (texts words.now) }
{
    match number(words, place, 1, 16_777_215) {
        Ok(number) => Ok(number as u32),
        Err(fault) => Err(fault),
    }
}

// An octal digit.
fn is_octal(digit: u8) -> bool
    ensures { result ≡ form.is_octal digit }
{
    b'0' <= digit && digit <= b'7'
}

// What an octal digit stands for.
fn octal(digit: u8) -> u16
    requires { form.is_octal digit ≡ true }
    ensures { result ≡ digit - 48 }
{
    u16::from(digit - b'0')
}

// The mode that a word is: four octal digits, the first of them 0.
fn mode_of(word: &[u8]) -> Option<u16>
    ensures { result ≡ if form.is_mode word.now then Some (digits_value 8 word.now) else None }
{
    match word {
        [b'0', a, b, c] if is_octal(*a) && is_octal(*b) && is_octal(*c) => {
            Some(octal(*a) * 64 + octal(*b) * 8 + octal(*c))
        }
        _ => None,
    }
}

/// The mode at a place.
#[tactic(auto, unfolding(crate::specs::Forms::mode))]
pub fn mode(words: &[&[u8]], place: u8) -> Result<u16, SyntaxFault>
    requires { place < length words.now }
    ensures { result ≡ form.mode place (texts words.now) }
{
    match mode_of(words[place as usize]) {
        Some(mode) => Ok(mode),
        None => Err(SyntaxFault::Number(place)),
    }
}

/// Whether the word at a place is this keyword.
pub fn is_word(words: &[&[u8]], place: u8, text: &[u8]) -> bool
    requires { place < length words.now }
    ensures { result ≡ bytes_eq (form.word place (texts words.now)) text.now }
{
    words[place as usize] == text
}

/// The keyword at a place.
#[tactic(auto, unfolding(crate::specs::Forms::keyword))]
pub fn keyword(words: &[&[u8]], place: u8, text: &[u8]) -> Result<(), SyntaxFault>
    requires { place < length words.now }
    ensures { result ≡ form.keyword place text.now (texts words.now) }
{
    if !is_word(words, place, text) {
        return Err(SyntaxFault::Keyword(place));
    }
    Ok(())
}

/// What one of two keywords at a place stands for.
#[tactic(auto, unfolding(crate::specs::Forms::either))]
pub fn either<T: Copy>(
    words: &[&[u8]],
    place: u8,
    one: &[u8],
    a: T,
    other: &[u8],
    b: T,
) -> Result<T, SyntaxFault>
    requires { place < length words.now }
    ensures { result ≡ form.either place one.now a other.now b (texts words.now) }
{
    if is_word(words, place, one) {
        Ok(a)
    } else if is_word(words, place, other) {
        Ok(b)
    } else {
        Err(SyntaxFault::Keyword(place))
    }
}

/// The kind of an enclave at a place.
pub fn kind(words: &[&[u8]], place: u8) -> Result<Kind, SyntaxFault>
    requires { place < length words.now }
    ensures { result ≡ form.kind place (texts words.now) }
{
    either(words, place, b"cokernel", Kind::Cokernel, b"vm", Kind::Vm)
}

/// The access at a place.
pub fn access(words: &[&[u8]], place: u8) -> Result<Access, SyntaxFault>
    requires { place < length words.now }
    ensures { result ≡ form.access place (texts words.now) }
{
    either(
        words,
        place,
        b"ro",
        Access::ReadOnly,
        b"rw",
        Access::ReadWrite,
    )
}

/// What a touch wants, at a place.
pub fn want(words: &[&[u8]], place: u8) -> Result<Want, SyntaxFault>
    requires { place < length words.now }
    ensures { result ≡ form.want place (texts words.now) }
{
    either(words, place, b"r", Want::Read, b"w", Want::Write)
}
