// Laws of makes and removes: each is the contract of a function that does nothing, which a crate above calls to have it.
ghost use Rattle.std.specs.Prelude.{◌<◌, ◌^◌, List, [], length};
ghost use Rattle.xemem_language.specs.declared.command.Command.{Command as Commands};
ghost use Rattle.xemem_language.specs.declared.line.Line.{Line as JournalLine};
ghost use Rattle.global_model.specs.Due.{journal_of};
ghost use Rattle.global_model.specs.Facts.{after_lines, facts_after, no_facts};
ghost use Rattle.global_model.specs.Journals.{onto};
ghost use Rattle.global_model.specs.Pauses.{AreSteps, IsPause, Step, written_in};
ghost use Rattle.global_model.specs.Place.{IsPlaced};
ghost use Rattle.global_model.specs.Rest.{IsAtRest};
ghost use Rattle.call_laws.specs.Flights.{AreSingle};
ghost use Rattle.call_laws.specs.Laws.{CallLaws};
ghost use Rattle.call_laws.specs.Legal.{AreCalls};
ghost use Rattle.call_laws.specs.One.{AreCellsTrue, AreSegidsOne};
ghost use Rattle.call_laws.specs.Onward.{AreOnward};
ghost use Rattle.call_laws.specs.Places.{ArePlacedCalls, HasRoom, HaveSegids, IsEven};
ghost use Rattle.call_laws.specs.Roads.{AreReady};

use attach_map::Waiting;
use discovery_laws::ways_lead;
use global_model::{
    journals_are_apt, journals_are_carried, journals_are_in_steps, pasts_grow, trees_have_paths,
};
use xm_num::Enclave;
use xm_num::laws::row_laws;

// The laws of the crates below, all at once.
fn laws()
    ensures { CallLaws }
{
    pasts_grow();
    journals_are_apt();
    journals_are_carried();
    journals_are_in_steps();
    trees_have_paths();
    ways_lead();
    row_laws::<Enclave>();
    row_laws::<Waiting>();
}

/// Each line of a make or a remove is lawful by the lines before it. A call, a make or another, is issued under a new number. A segid
/// is drawn for a make that was issued and has none, and it is one more than were drawn. A segment is live once its segid was drawn,
/// while its make waits and its process lives. A segid is forgotten while it stands, and once no make for which it was drawn waits or
/// has a live segment. A remove ends a live segment of its enclave. A make is answered to its process while it waits, once its segment
/// is live under the segid that was drawn for it.
pub fn calls_are_legal()
    ensures { (commands : List Commands) → IsPlaced commands → AreCalls (journal_of commands) }
{
    laws();
}

/// What the cells of makes say is what the facts say. A make waits exactly where its cell does. The live segments are exactly those of
/// makes whose cells are near, under the segids that were drawn for them, and the names at the name server are exactly those of
/// makes whose cells are far. Segids were drawn upwards, each for one make.
pub fn cells_are_true()
    ensures { (commands : List Commands) → IsPlaced commands → AreCellsTrue (onto (journal_of commands) []) }
{
    laws();
}

/// No two live segments, of whichever enclaves, have the same segid.
pub fn segids_are_one()
    ensures { (commands : List Commands) → IsPlaced commands → AreSegidsOne (facts_after (journal_of commands)) }
{
    laws();
}

/// An enclave that is admitted knows the way to the name server, and routes lead to it from there: each enclave on the path has one.
/// Whoever lies on a way knows its own. So it is wherever a command has ended, and at every pause between the steps of a journal.
pub fn roads_are_known()
    ensures ended { (commands : List Commands) → IsPlaced commands → AreReady (facts_after (journal_of commands)) }
    ensures pauses { (steps : List Step) → AreSteps no_facts steps → AreReady (after_lines no_facts (written_in no_facts steps)) }
{
    laws();
}

/// Of each call at most one record is under way, in one channel, and it fits what stands of its call: while the request is under way
/// the call waits and has no segid; while the name is, it waits and has that segid, which stands at the name server; and while the
/// segid is told to be forgotten, the call has ended and the segid still stands. A live segment stands at the name server. So it is
/// wherever a command has ended, and at every pause between the steps of a journal.
pub fn records_are_single()
    ensures ended { (commands : List Commands) → IsPlaced commands → AreSingle (onto (journal_of commands) []) }
    ensures pauses { (steps : List Step) → AreSteps no_facts steps → AreSingle (onto (written_in no_facts steps) []) }
{
    laws();
}

/// Each record of a call that is under way goes on at whoever gets it. It isn't of that enclave itself. That one is its goal, or knows
/// the neighbour over which it goes on, which isn't the one from which it came. So it is wherever a command has ended, and at every pause
/// between the steps of a journal.
pub fn records_go_on()
    ensures ended { (commands : List Commands) → IsPlaced commands → AreOnward (facts_after (journal_of commands)) }
    ensures pauses { (steps : List Step) → AreSteps no_facts steps → IsPause (after_lines no_facts (written_in no_facts steps))
        → AreOnward (after_lines no_facts (written_in no_facts steps)) }
{
    laws();
}

/// No record of a make is lost. Each make has one place, which its cell tells, and stands there as `StandsAt` says: while it waits its
/// request or its name is under way, while its segid is to be forgotten so is the record that tells it, and else none is. Of a call that
/// is no make none is. So it is wherever a command has ended, and at every pause between the steps of a journal, where there was room
/// for segids and calls. Commands have segids in their range; of steps alone that is asked.
pub fn makes_have_places()
    ensures ended { (commands : List Commands) → IsPlaced commands → HasRoom (onto (journal_of commands) [])
        → ArePlacedCalls (onto (journal_of commands) []) }
    ensures pauses { (steps : List Step) → AreSteps no_facts steps → HasRoom (onto (written_in no_facts steps) [])
        → HaveSegids (onto (written_in no_facts steps) []) → ArePlacedCalls (onto (written_in no_facts steps) []) }
{
    laws();
}

/// A journal of fewer than 2^32 lines has room for segids and calls: a line draws one segid at most, and issues one call.
pub fn short_journals_have_room()
    ensures { (journal : List JournalLine) → length journal < 2 ^ 32 → HasRoom (onto journal []) }
{}

/// Where nothing waits in any channel no call waits either, and the name server's names are those of the live segments, each with the
/// enclave that has it: so every make has been answered, and every removed segid forgotten. There is room for segids and calls.
pub fn rest_is_even()
    ensures { (commands : List Commands) → IsPlaced commands → HasRoom (onto (journal_of commands) [])
        → IsAtRest (facts_after (journal_of commands)) → IsEven (onto (journal_of commands) []) }
{
    laws();
}
