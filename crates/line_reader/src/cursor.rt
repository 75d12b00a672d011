// The words of a journal line, one after the other.
ghost use Rattle.std.specs.Prelude.{◌≡◌, ◌≢◌, ◌<◌, ◌≤◌, ℕ, length, slice_index, [], option_map, IfSome, MatchOption};
ghost use Rattle.line_reader.specs.Slots as slot;

use std::marker::Model;
use text_words::number_of;

/// The words of a text that are left: its pieces between single spaces.
#[derive(Drop)]
pub struct Words<'a> {
    // The text of the words that are left, or none behind the last word.
    rest: Option<&'a [u8]>,
}

impl<'a> Model for Words<'a> {
    ghost use Rattle.std.specs.Prelude.{List, ℕ};
    ghost use Rattle.line_reader.specs.Slots.{words_left};

    ghost Value = { List (List ℕ) };

    ghost view = { λ words. words_left words.rest };
}

// How many bytes stand before the first space, or all of them.
fn word_length(text: &[u8]) -> usize
    ensures within { result ≤ length text.now }
    ensures before { (k : ℕ) → k < result → slice_index text.now k ≢ 32 }
    ensures found { result < length text.now → slice_index text.now result ≡ 32 }
{
    for (at, byte) in text.iter().enumerate() {
        if *byte == b' ' {
            return at;
        }
    }
    text.len()
}

impl<'a> Words<'a> {
    /// All words of a text.
    pub fn new(text: &'a [u8]) -> Self
        ensures { result ≡ slot.pieces text.now }
    {
        Words { rest: Some(text) }
    }

    /// The next word.
    #[tactic(auto, unfolding(crate::specs::Slots::next_word))]
    pub fn next(&mut self) -> Option<&'a [u8]>
        ensures word { option_map (λ word. (word.now, self.new)) result ≡ slot.next_word self.old }
        ensures end { MatchOption result (self.new ≡ []) (λ word. Unit {0}) }
    {
        let text = self.rest?;
        let end = word_length(text);
        if end < text.len() {
            self.rest = Some(&text[end + 1..]);
            Some(&text[..end])
        } else {
            self.rest = None;
            Some(text)
        }
    }

    /// Whether no word is left.
    pub fn is_empty(&self) -> bool
        ensures { result ≡ slot.is_done self.now }
    {
        self.rest.is_none()
    }

    /// The next word's number, where it is one and at most so high.
    #[tactic(auto, unfolding(crate::specs::Slots::next_number))]
    pub fn number(&mut self, high: u64) -> Option<u64>
        ensures value { option_map (λ n. (n, self.new)) result ≡ slot.next_number high self.old }
        ensures bounds { IfSome result (λ n. n ≤ high) }
    {
        let word = self.next()?;
        number_of(word, 0, high)
    }

    /// The next word, where it is this one.
    #[tactic(auto, unfolding(crate::specs::Slots::next))]
    pub fn keyword(&mut self, name: &[u8]) -> Option<()>
        ensures { option_map (λ value. (value, self.new)) result ≡ slot.next (slot.keyword name.now) self.old }
    {
        let word = self.next()?;
        if word == name { Some(()) } else { None }
    }

    /// The next word as a name.
    #[tactic(auto, unfolding(crate::specs::Slots::next))]
    pub fn text(&mut self) -> Option<&'a [u8]>
        ensures { option_map (λ word. (word.now, self.new)) result ≡ slot.next slot.text self.old }
    {
        self.next()
    }
}
