// Laws of discovery: each is the contract of a function that does nothing, which a crate above calls to have it.
ghost use Rattle.std.specs.Prelude.{◌≡◌, ◌≤◌, ℕ, List, true};
ghost use Rattle.xemem_language.specs.declared.command.Command.{Command as Commands};
ghost use Rattle.global_model.specs.Due.{journal_of};
ghost use Rattle.global_model.specs.Facts.{after_lines, facts_after, no_facts};
ghost use Rattle.global_model.specs.Pauses.{AreSteps, Step, written_in};
ghost use Rattle.global_model.specs.Place.{IsPlaced};
ghost use Rattle.global_model.specs.Rest.{IsAtRest};
ghost use Rattle.discovery_laws.specs.Known.{AreAdmitted};
ghost use Rattle.discovery_laws.specs.Laws.{DiscoveryLaws};
ghost use Rattle.discovery_laws.specs.Ways.{IsLeading, ways_in};
ghost use Rattle.discovery_laws.specs.Once.{IsOnce};

use global_model::{journals_are_carried, journals_are_in_steps, pasts_grow, trees_have_paths};
use xm_num::Enclave;
use xm_num::laws::{row_laws, rows};

// The laws of the crates below, all at once.
fn laws()
    ensures { DiscoveryLaws }
{
    pasts_grow();
    journals_are_carried();
    journals_are_in_steps();
    trees_have_paths();
    rows::<Enclave>();
    row_laws::<Enclave>();
}

/// An enclave's way goes to the next enclave on the path to the one that holds the name server, of which there is one. A way back and
/// a route go to the next enclave on the path to the enclave that they are to. So it is wherever a command has ended, and at every pause
/// between the steps of a journal.
pub fn ways_lead()
    ensures ended { (commands : List Commands) → IsPlaced commands → IsLeading (facts_after (journal_of commands)) }
    ensures pauses { (steps : List Step) → AreSteps no_facts steps → IsLeading (after_lines no_facts (written_in no_facts steps)) }
{
    laws();
}

/// An enclave learns its way once: a journal has at most one line by which it does.
pub fn ways_come_once()
    ensures { (commands : List Commands) → IsPlaced commands → (e : ℕ) → ways_in e (journal_of commands) ≤ 1 }
{
    laws();
}

/// No enclave gets two queries, heres, registers or admits with the same origin, destination and call.
pub fn records_come_once()
    ensures { (commands : List Commands) → IsPlaced commands → IsOnce (journal_of commands) }
{
    laws();
}

/// Where nothing waits in any channel, and an enclave was born with the name server, each living enclave knows the way to it and is
/// admitted.
pub fn rest_is_admitted()
    ensures { (commands : List Commands) → IsPlaced commands → IsAtRest (facts_after (journal_of commands))
        → (facts_after (journal_of commands)).server ≡ true → AreAdmitted (facts_after (journal_of commands)) }
{
    laws();
}
