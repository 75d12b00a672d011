// Laws of scenarios and of the words of commands: a crate above calls such a function to have its contract.
ghost use Rattle.std.specs.Prelude.{◌≡◌, ℕ, List, Bool, Ok};
ghost use Rattle.xemem_language.specs.declared.command.Command.{Command as Commands};
ghost use Rattle.xemem_language.specs.Place.{ArePlacedBy};
ghost use Rattle.xemem_language.specs.Ranges.{IsInRange};
ghost use Rattle.xemem_language.specs.Spelling.{command_words};
ghost use Rattle.text_words.specs.Solid.{AreWords};
ghost use Rattle.command_reader.specs.Forms.{command_of};
ghost use Rattle.command_reader.specs.Scenario.{scenario_by};

use text_words::{numbers_are_read_back, spellings_are_words};

/// The commands of any scenario are built and stand where they may, their numbers in their ranges, whichever commands
/// are built.
pub fn scenarios_are_placed()
    ensures { (built : Commands → Bool) (bytes : List ℕ) → ArePlacedBy built 0 (scenario_by built bytes).commands }
{
    numbers_are_read_back();
}

/// A command whose numbers are in their ranges is read back from its words. Words that spell a command are the words of that command, and its numbers are in their ranges.
pub fn commands_are_read_back()
    ensures back { (command : Commands) → IsInRange command → command_of (command_words command) ≡ Ok command }
    ensures words { (words : List (List ℕ)) → (command : Commands) → command_of words ≡ Ok command
        → words ≡ command_words command }
    ensures ranges { (words : List (List ℕ)) → (command : Commands) → command_of words ≡ Ok command
        → IsInRange command }
{
    numbers_are_read_back();
}

/// No blank and no line feed stands in the words of a command.
pub fn commands_are_words()
    ensures { (command : Commands) → AreWords (command_words command) }
{
    spellings_are_words();
}
