// The text of lines.
ghost use Rattle.std.specs.Prelude.{◌≡◌, ◌++◌, OnOk};
ghost use Rattle.xemem_language.specs.Spelling.{text_of};

use scenario_text::print_line;
use std::alloc::AllocError;
use xemem_language::Line;

/// Appends the texts of lines. For want of memory a part of them may stand.
pub fn print_lines(lines: &[Line], out: &mut Vec<u8>) -> Result<(), AllocError>
    ensures { OnOk result (out.new.items ≡ out.old.items ++ text_of lines.now) }
{
    for line in lines {
        print_line(line, out)?;
    }
    Ok(())
}
