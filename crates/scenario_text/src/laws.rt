// Laws of journals: a crate above calls such a function to have its contract.
ghost use Rattle.std.specs.Prelude.{◌≡◌, List, map};
ghost use Rattle.std.specs.List.{join_with_byte, All};
ghost use Rattle.xemem_language.specs.declared.line.Line.{Line as JournalLine};
ghost use Rattle.xemem_language.specs.Ranges.{IsSpelled};
ghost use Rattle.xemem_language.specs.Spelling.{line_words, text_of};
ghost use Rattle.text_words.specs.Words.{lines_of};
ghost use Rattle.line_reader.specs.Typed.{IsTyped};
ghost use Rattle.scenario_text.specs.Reading.{IsReadAs};

use line_reader::{lines_are_read_back, lines_are_words};

/// The lines of a journal's text are those that were spelled, in order.
pub fn journals_are_split_again()
    ensures { (journal : List JournalLine)
        → lines_of (text_of journal) ≡ map (λ line. join_with_byte 32 (line_words line)) journal }
{
    lines_are_words();
}

/// The text of a journal, whose lines have spellings and whose numbers fit their types, is read back as this journal.
pub fn journals_are_read_back()
    ensures { (journal : List JournalLine) → All IsTyped journal → All IsSpelled journal → IsReadAs (text_of journal) journal }
{
    journals_are_split_again();
    lines_are_read_back();
}
