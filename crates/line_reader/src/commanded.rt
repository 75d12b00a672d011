// The line that begins a command.
ghost use Rattle.std.specs.Prelude.{◌≡◌, ◌<◌, map, length, option_map, take, []};
ghost use Rattle.line_reader.specs.Lines as spec;

use crate::cursor::Words;
use arrayvec::ArrayVec;
use command_reader::command;
use xemem_language::Line;

// The first eight words that are left: no command has as many.
fn first_words<'a>(words: &mut Words<'a>) -> ArrayVec<&'a [u8], 8>
    ensures kept { map (λ word. word.now) result.items ≡ take 8 words.old }
    ensures done { length words.old < 8 → words.new ≡ [] }
{
    let mut kept = ArrayVec::new();
    while !kept.is_full() {
        let Some(word) = words.next() else {
            return kept;
        };
        kept.push(word);
    }
    kept
}

/// The command that the words that are left spell.
#[tactic(auto, unfolding(crate::specs::Lines::do_form))]
pub fn commanded(words: &mut Words) -> Option<Line>
    ensures { option_map (λ line. (line, words.new)) result ≡ spec.do_form words.old }
{
    let kept = first_words(words);
    let kept = kept.as_slice();
    if kept.is_empty() {
        return None;
    }
    if kept.len() == 8 {
        return None;
    }
    match command(kept) {
        Ok(command) => Some(Line::Do { command }),
        Err(_) => None,
    }
}
