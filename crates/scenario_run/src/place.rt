// Which commands are built.
ghost use Rattle.std.specs.Prelude.{◌≡◌};
ghost use Rattle.enclave_rules.specs.Built as spec;

use xemem_language::Command;
use xm_num::Kind;

/// Whether the command's form is built.
pub fn is_built(command: &Command) -> bool
    ensures { result ≡ spec.is_built command.now }
{
    match command {
        Command::Boot { kind, .. } => *kind == Kind::Cokernel,
        Command::Pool { .. } | Command::Host { .. } | Command::Proc { .. } => true,
        Command::Alloc { .. } | Command::Touch { .. } => true,
        Command::Make { .. } | Command::Remove { .. } => true,
        Command::Deliver { .. } | Command::Settle { .. } => true,
        Command::ShowRoutes { .. } | Command::ShowLink { .. } => true,
        Command::ShowPool | Command::ShowNames => true,
        _ => false,
    }
}
