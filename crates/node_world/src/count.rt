// How many lines pass no limit.
ghost use Rattle.std.specs.Prelude.{◌≡◌, ◌+◌, ◌≤◌, ◌<◌, ◌^◌, length, take, true, None, Some};
ghost use Rattle.xemem_language.specs.Spelling.{line_words, words_in};
ghost use Rattle.global_model.specs.Journals as history;
ghost use Rattle.node_world.specs.World.{PassesBy, most_words, most_deliveries};
ghost use Rattle.node_world.specs.World as spec;

use crate::world::Which;
use xemem_language::{Line, word_count};

/// How many of some lines pass no limit, how many words and deliveries there are with them, and the limit that the next
/// one would pass.
#[derive(Clone, Copy)]
pub struct Fit {
    pub count: usize,
    pub words: u64,
    pub deliveries: u32,
    pub stop: Option<Which>,
}

/// Whether the line tells a delivery.
fn is_delivery(line: &Line) -> bool
    ensures { result ≡ history.is_delivery line.now }
{
    matches!(line, Line::Took { .. } | Line::End { .. })
}

/// The limit that a line would pass behind so many words and deliveries.
pub fn passed(line: &Line, words: u64, deliveries: u32) -> Option<Which>
    requires words { words ≤ most_words }
    requires deliveries { deliveries ≤ most_deliveries }
    ensures passes { (which : _) → result ≡ Some which → PassesBy which words deliveries line.now }
    ensures words { result ≡ None → words + length (line_words line.now) ≤ most_words }
    ensures deliveries { result ≡ None → history.is_delivery line.now ≡ true → deliveries < most_deliveries }
{
    if is_delivery(line) && deliveries >= Which::Deliveries.most() {
        return Some(Which::Deliveries);
    }
    if word_count(line) > u64::from(Which::Words.most()) - words {
        return Some(Which::Words);
    }
    None
}

/// How many of the lines pass no limit behind so many words and deliveries.
pub fn fitting(lines: &[Line], words: u64, deliveries: u32) -> Fit
    requires words { words ≤ most_words }
    requires deliveries { deliveries ≤ most_deliveries }
    ensures within { result.count ≤ length lines.now }
    ensures words { result.words ≡ words + words_in (take result.count lines.now) }
    ensures deliveries { result.deliveries ≡ deliveries + history.deliveries_in (take result.count lines.now) }
    ensures words_fit { result.words ≤ most_words }
    ensures deliveries_fit { result.deliveries ≤ most_deliveries }
    ensures whole { result.stop ≡ None → result.count ≡ length lines.now }
    ensures stopped { (which : _) → result.stop ≡ Some which → spec.IsNextOver which result.words result.deliveries result.count lines.now }
{
    let mut words = words;
    let mut deliveries = deliveries;
    for (count, line) in lines.iter().enumerate() {
        if let Some(which) = passed(line, words, deliveries) {
            return Fit {
                count,
                words,
                deliveries,
                stop: Some(which),
            };
        }
        words += word_count(line);
        deliveries += u32::from(is_delivery(line));
    }
    Fit {
        count: lines.len(),
        words,
        deliveries,
        stop: None,
    }
}
