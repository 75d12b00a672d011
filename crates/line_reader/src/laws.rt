// Laws of the lines of journals: each is a contract that is shown by the laws of the crates below, and a crate above calls
// the function to have it.
ghost use Rattle.std.specs.Prelude.{◌≡◌, ◌↔◌, List, ℕ, Some};
ghost use Rattle.std.specs.List.{join_with_byte};
ghost use Rattle.xemem_language.specs.declared.line.Line.{Line as JournalLine};
ghost use Rattle.xemem_language.specs.Ranges.{IsSpelled};
ghost use Rattle.xemem_language.specs.Spelling.{line_words};
ghost use Rattle.text_words.specs.Solid.{AreWords};
ghost use Rattle.line_reader.specs.Laws.{Laws};
ghost use Rattle.line_reader.specs.Lines.{text_line};
ghost use Rattle.line_reader.specs.Typed.{IsTyped};

use command_reader::{commands_are_read_back, commands_are_words};
use text_words::{numbers_are_read_back, spellings_are_words};

/// The laws of the crates below, all at once.
pub fn laws()
    ensures { Laws }
{
    numbers_are_read_back();
    spellings_are_words();
    commands_are_read_back();
    commands_are_words();
}

/// A text is read as a line exactly where it is the words of that line with one space between, and the line has a
/// spelling, each number in the range of its type.
pub fn lines_are_read_back()
    ensures { (text : List ℕ) → (line : JournalLine)
        → (text_line text ≡ Some line) ↔ ((text ≡ join_with_byte 32 (line_words line)) × IsSpelled line × IsTyped line) }
{
    laws();
}

/// No blank and no line feed stands in the words of a line.
pub fn lines_are_words()
    ensures { (line : JournalLine) → AreWords (line_words line) }
{
    laws();
}
