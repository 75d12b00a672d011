// Lines out of a text, and words out of a line.
ghost use Rattle.std.specs.Prelude.{◌≡◌, ◌≢◌, ◌<◌, ◌≤◌, ◌∷◌, ℕ, length, map, take, slice_index, false};
ghost use Rattle.text_words.specs.Words as spec;
ghost use Rattle.text_words.specs.Words.{lines_of, words_of};

use arrayvec::ArrayVec;

// How many bytes stand before the first line feed, or all of them.
fn line_length(text: &[u8]) -> usize
    ensures within { result ≤ length text.now }
    ensures before { (k : ℕ) → k < result → slice_index text.now k ≢ 10 }
    ensures found { result < length text.now → slice_index text.now result ≡ 10 }
{
    for (at, byte) in text.iter().enumerate() {
        if *byte == b'\n' {
            return at;
        }
    }
    text.len()
}

/// The first line without its line feed, and what comes after it.
pub fn first_line(text: &[u8]) -> (&[u8], &[u8])
    requires { 0 < length text.now }
    ensures lines { lines_of text.now ≡ result.0.now ∷ lines_of result.1.now }
    ensures shorter { length result.1.now < length text.now }
{
    let end = line_length(text);
    if end < text.len() {
        (&text[..end], &text[end + 1..])
    } else {
        (text, &[])
    }
}

// A space or a tab.
fn is_blank(byte: u8) -> bool
    ensures { result ≡ spec.is_blank byte }
{
    byte == b' ' || byte == b'\t'
}

// How many bytes at the front are blanks, or are none.
fn run_length(text: &[u8], blank: bool) -> usize
    ensures within { result ≤ length text.now }
    ensures same { (k : ℕ) → k < result → spec.is_blank (slice_index text.now k) ≡ blank }
    ensures other { result < length text.now → spec.is_blank (slice_index text.now result) ≢ blank }
{
    for (at, byte) in text.iter().enumerate() {
        if is_blank(*byte) != blank {
            return at;
        }
    }
    text.len()
}

// The line from its first word on.
fn skip_blanks(text: &[u8]) -> &[u8]
    ensures words { words_of text.now ≡ words_of result.now }
    ensures shorter { length result.now ≤ length text.now }
    ensures start { 0 < length result.now → spec.is_blank (slice_index result.now 0) ≡ false }
{
    &text[run_length(text, true)..]
}

// The first word and what comes after it.
fn first_word(text: &[u8]) -> (&[u8], &[u8])
    requires some { 0 < length text.now }
    requires start { spec.is_blank (slice_index text.now 0) ≡ false }
    ensures words { words_of text.now ≡ result.0.now ∷ words_of result.1.now }
    ensures shorter { length result.1.now < length text.now }
{
    let end = run_length(text, false);
    if end < text.len() {
        (&text[..end], &text[end + 1..])
    } else {
        (text, &[])
    }
}

/// The first eight words of a line: no form has as many, and a comment may have any number.
pub fn words(line: &[u8]) -> ArrayVec<&[u8], 8>
    ensures { map (λ word. word.now) result.items ≡ take 8 (words_of line.now) }
{
    let mut words = ArrayVec::new();
    let mut rest = skip_blanks(line);
    while !rest.is_empty() {
        if words.is_full() {
            return words;
        }
        let (word, after) = first_word(rest);
        words.push(word);
        rest = skip_blanks(after);
    }
    words
}
