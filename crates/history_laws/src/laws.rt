// Laws of histories: each is the contract of a function that does nothing, which a crate above calls to have it.
ghost use Rattle.std.specs.Prelude.{◌≡◌, ◌++◌, ◌∷◌, [], ℕ, List, All};
ghost use Rattle.xm_num.specs.Rows.{at};
ghost use Rattle.xemem_language.specs.declared.command.Command.{Command as Commands};
ghost use Rattle.xemem_language.specs.declared.line.Line.{Line as JournalLine};
ghost use Rattle.xemem_language.specs.Ranges.{IsSpelled};
ghost use Rattle.line_reader.specs.Typed.{IsTyped};
ghost use Rattle.global_model.specs.Place.{IsPlaced};
ghost use Rattle.global_model.specs.Facts.{facts_at};
ghost use Rattle.global_model.specs.Due.{journal_of};
ghost use Rattle.global_model.specs.Journals.{do_commands};
ghost use Rattle.history_laws.specs.History.{IsHistory, IsLegal, IsTold, IsWhole};
ghost use Rattle.history_laws.specs.Fitting.{IsCountable};
ghost use Rattle.history_laws.specs.Ways.{way_heard, back_heard, route_heard, asker_heard};
ghost use Rattle.history_laws.specs.Counts.{IsLimited, births_in, starts_in, starts_by, has_server};
ghost use Rattle.history_laws.specs.Laws.{HistoryLaws};

use call_laws::{calls_are_legal, rest_is_even, short_journals_have_room};
use discovery_laws::rest_is_admitted;
use global_model::{
    acts_are_plain, journals_are_apt, journals_are_carried, journals_are_in_steps,
    journals_are_rested, journals_grow, lines_are_seen, pasts_grow, refusals_come_first,
};
use xemem_wire::laws::{body_is_spelled, spelling_length};
use xm_num::laws::{row_laws, rows};
use xm_num::{Enclave, Page};

// The laws of the crates below, all at once.
fn laws()
    ensures { HistoryLaws }
{
    pasts_grow();
    journals_grow();
    journals_are_carried();
    journals_are_apt();
    journals_are_in_steps();
    lines_are_seen();
    acts_are_plain();
    refusals_come_first();
    rows::<Page>();
    row_laws::<Enclave>();
    spelling_length();
    body_is_spelled();
}

/// Exactly one journal is told and whole and has given commands in its `do` lines.
pub fn one_journal()
    ensures told { (commands : List Commands) → IsTold (journal_of commands) }
    ensures whole { (commands : List Commands) → IsWhole (journal_of commands) }
    ensures commands { (commands : List Commands) → do_commands (journal_of commands) ≡ commands }
    ensures only { (journal : List JournalLine) → IsTold journal → IsWhole journal
        → journal ≡ journal_of (do_commands journal) }
{
    laws();
}

/// The journal of commands, each of which may stand after those before it, is legal.
pub fn journals_are_legal()
    ensures { (commands : List Commands) → IsPlaced commands → IsLegal (journal_of commands) }
{
    laws();
}

/// The journal of commands, each of which may stand after those before it, is a lawful history.
pub fn journals_are_histories()
    ensures { (commands : List Commands) → IsPlaced commands → IsHistory (journal_of commands) }
{
    one_journal();
    journals_are_legal();
    journals_are_carried();
    journals_are_rested();
    rest_is_admitted();
    calls_are_legal();
    short_journals_have_room();
    rest_is_even();
    laws();
}

/// A front of a lawful history is one, wherever it ends.
pub fn fronts_are_histories()
    ensures { (journal rest : List JournalLine) → IsHistory (journal ++ rest) → IsHistory journal }
{}

/// What is told is a lawful history, where its commands stand where they may.
pub fn told_are_histories()
    ensures { (journal : List JournalLine) → IsTold journal → IsPlaced (do_commands journal) → IsHistory journal }
{
    laws();
    journals_are_histories();
}

/// Each line of a journal has a spelling.
pub fn journals_are_spelled()
    ensures { (commands : List Commands) → IsPlaced commands → All IsSpelled (journal_of commands) }
{
    laws();
}

/// Each number of a journal's lines fits its type, where the journal isn't too long; and those of the lines of one command more.
pub fn journals_fit()
    ensures whole { (commands : List Commands) → IsPlaced commands → IsCountable (journal_of commands) → All IsTyped (journal_of commands) }
    ensures more { (commands : List Commands) (command : Commands) → IsPlaced (commands ++ command ∷ []) → IsCountable (journal_of commands)
        → All IsTyped (journal_of (commands ++ command ∷ [])) }
{
    laws();
}

/// The neighbours over which an enclave's ways go are those of which it heard last, none for an enclave of whose death it heard; its
/// askers are those that asked since it learned its way.
pub fn ways_are_heard()
    ensures way { (e : ℕ) (past : List JournalLine) → ((facts_at past).ways e).way ≡ way_heard e past }
    ensures backs { (e d : ℕ) (past : List JournalLine) → at ((facts_at past).ways e).backs d ≡ back_heard e d past }
    ensures routes { (e d : ℕ) (past : List JournalLine) → at ((facts_at past).ways e).routes d ≡ route_heard e d past }
    ensures askers { (e k : ℕ) (past : List JournalLine) → at ((facts_at past).ways e).askers k ≡ asker_heard e k past }
{
    laws();
}

/// How many enclaves were born and processes started, and whether the name server is held, is what the lines of the past say. Where a
/// journal is legal, a boot or a start is refused as one too many, and a boot as a second holder's, only where they say so, and
/// is carried out only where they don't.
pub fn pasts_are_counted()
    ensures births { (past : List JournalLine) → (facts_at past).born ≡ births_in past }
    ensures starts { (past : List JournalLine) → (facts_at past).starts ≡ starts_in past }
    ensures started { (e : ℕ) (past : List JournalLine) → ((facts_at past).memory e).started ≡ starts_by e past }
    ensures server { (past : List JournalLine) → (facts_at past).server ≡ has_server past }
    ensures refusals { (journal : List JournalLine) → IsLegal journal → IsLimited journal }
{}
