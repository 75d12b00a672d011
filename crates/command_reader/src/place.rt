// Where a command may stand.
ghost use Rattle.std.specs.Prelude.{◌≡◌};
ghost use Rattle.xemem_language.specs.Place.{is_in_place};

use xemem_language::Command;

/// Whether a command may stand after so many others: the first is `pool`, the second `host`, and neither stands later.
pub fn place_ok(before: u32, cmd: &Command) -> bool
    ensures { result ≡ is_in_place before cmd.now }
{
    match cmd {
        Command::Pool { .. } => before == 0,
        Command::Host { .. } => before == 1,
        _ => before >= 2,
    }
}
