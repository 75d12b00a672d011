// Laws of the definitions: each is the contract of a function that does nothing, which a crate above calls to have it.
ghost use Rattle.std.specs.Prelude.{◌≡◌, ◌==◌, ◌||◌, ◌≢◌, ◌⊎◌, ◌≤◌, ◌<◌, ◌+◌, ◌-◌, ℕ, List, [], ◌∷◌, ◌++◌, length, take, drop, Bool, true, false, None, nat_lt, if◌then◌else◌, Some};
ghost use Rattle.std.specs.List.{AllByRecursion};
ghost use Rattle.xm_num.specs.declared.Enclave.{Enclave as Enclaves};
ghost use Rattle.xm_num.specs.declared.Cause.{Cause as Causes};
ghost use Rattle.xm_num.specs.declared.Cause.TheVariants as causes;
ghost use Rattle.xemem_language.specs.declared.command.Command.{Command as Commands};
ghost use Rattle.xemem_language.specs.declared.command.Command.TheVariants as command;
ghost use Rattle.xemem_language.specs.declared.line.Line.{Line as JournalLine};
ghost use Rattle.xemem_language.specs.declared.line.Line.TheVariants as line;
ghost use Rattle.xemem_language.specs.declared.record.Record.{Record as WireRecord};
ghost use Rattle.xemem_wire.specs.Spelling.{spellings_of};
ghost use Rattle.enclave_rules.specs.Core.{is_guest};
ghost use Rattle.enclave_rules.specs.View.{View, own_lines, unborn_view, AreOf, AreAbout};
ghost use Rattle.enclave_rules.specs.Steps.{refusal, host_lines, first_blocks, lines_of_records};
ghost use Rattle.global_model.specs.Place.{IsPlaced};
ghost use Rattle.global_model.specs.Facts.{Facts, after_line, after_lines, facts_at, facts_after, is_living_enclave, no_facts};
ghost use Rattle.global_model.specs.Channels.{is_neighbour, whole_records};
ghost use Rattle.global_model.specs.Views.{view_of, seen_lines};
ghost use Rattle.global_model.specs.Handled.{AreHandled, SeenAt};
ghost use Rattle.global_model.specs.Apt.{AptAt, IsTaking, OwnedAt};
ghost use Rattle.global_model.specs.Known.{IsAnswered};
ghost use Rattle.global_model.specs.Due.{deliver_lines, next_rest, first_waiting, acts_of, command_lines, journal_of, step_lines};
ghost use Rattle.global_model.specs.Refusals.{Condition, when, first_cause};
ghost use Rattle.global_model.specs.Plain.{ArePlain, AreActs, IsQuiet, BearsOne};
ghost use Rattle.global_model.specs.Flow.{IsFlowing, IsTree};
ghost use Rattle.global_model.specs.Tree.{IsRooted, AreNear, IsPath, IsToward, is_above, path, hop, distance, parent_of};
ghost use Rattle.global_model.specs.Journals.{do_commands, onto, Follows};
ghost use Rattle.global_model.specs.Carriage.{IsCarried};
ghost use Rattle.global_model.specs.Feeds.{FeedsFollowAt};
ghost use Rattle.global_model.specs.Rest.{EndsSettle, IsRested};
ghost use Rattle.global_model.specs.Pauses.{IsInSteps};

use xemem_wire::laws::{spelling_length, spellings_are_read};
use xm_num::Page;
use xm_num::laws::rows;

/// The journal of one command more goes on by that command's lines, and the facts after it by what they change.
pub fn journals_grow()
    ensures journal { (commands : List Commands) (command : Commands)
        → journal_of (commands ++ command ∷ []) ≡ journal_of commands ++ step_lines (facts_after (journal_of commands)) command }
    ensures facts { (journal lines : List JournalLine) → facts_after (journal ++ lines) ≡ after_lines (facts_after journal) lines }
    ensures commands { (commands : List Commands) → do_commands (journal_of commands) ≡ commands }
{}

/// What is read off the lines of a journal in turn: its past, the facts after them, and the commands of its `do` lines.
pub fn pasts_grow()
    ensures onto { (journal lines past : List JournalLine) → onto (journal ++ lines) past ≡ onto lines (onto journal past) }
    ensures facts { (journal past : List JournalLine) → facts_at (onto journal past) ≡ after_lines (facts_at past) journal }
    ensures after { (G : Facts) (journal lines : List JournalLine)
        → after_lines G (journal ++ lines) ≡ after_lines (after_lines G journal) lines }
    ensures commands { (journal lines : List JournalLine) → do_commands (journal ++ lines) ≡ do_commands journal ++ do_commands lines }
{}

/// No line of a command behind its `do` line begins another. But for births, allocations, touches and refusals they leave
/// blocks and own pages alone, and so does what follows a birth.
pub fn acts_are_plain()
    ensures acts { (G : Facts) (command : Commands) → AreActs (command_lines G command) }
    ensures quiet { (G : Facts) (command : Commands) → IsQuiet command → ArePlain (acts_of G command) }
    ensures behind { (G : Facts) (command : Commands) → BearsOne command → ArePlain (drop 1 (acts_of G command)) }
{}

/// A command that isn't refused meets none of its conditions.
pub fn refusals_come_first()
    ensures { (cause : Causes) (holds : Bool) (others : List Condition) → first_cause (when cause holds ∷ others) ≡ None
        → (holds ≡ false) × (first_cause others ≡ None) }
{}

/// Each line of the journal of commands, each of which may stand after those before it, is apt: on its turn, by one who lives, to
/// neighbours, and valid. At each line the pages of processes are own ones, of frames in blocks that are lent to their enclave.
pub fn journals_are_apt()
    ensures apt { (commands : List Commands) → IsPlaced commands → Follows AptAt [] (journal_of commands) }
    ensures owned { (commands : List Commands) → IsPlaced commands → Follows OwnedAt [] (journal_of commands) }
{}

/// The journal of commands, each of which may stand after those before it, is carried. Wherever a command has ended the
/// enclaves are a tree below the host, their ways go over neighbours, every record that was sent is valid, every whole record was
/// got, and nothing was sent but between neighbours.
pub fn journals_are_carried()
    ensures carried { (commands : List Commands) → IsPlaced commands → IsCarried (journal_of commands) }
    ensures flowing { (commands : List Commands) → IsPlaced commands → IsFlowing (facts_after (journal_of commands)) }
{}

/// The journal of commands, each of which may stand after those before it, is one in steps: each step may come at the pause before
/// it, where the enclaves are a tree, their ways name neighbours, and each channel flows. So what holds before the first command
/// and is kept by each step that may come holds at every pause.
pub fn journals_are_in_steps()
    ensures { (commands : List Commands) → IsPlaced commands → IsInSteps no_facts (journal_of commands) }
{}

/// In a tree there is one path from one to another that goes over neighbours and names none twice. It goes on as the path from the
/// neighbour behind its first, which is nearer to the other end. Of two neighbours one is next from the other to any third. What is
/// born later changes none of it, and a path goes over those alone that live where its ends do. Who stands above an enclave but
/// the host is it itself, or stands above its parent.
pub fn trees_have_paths()
    ensures rooted { (G : Facts) → IsTree G → IsRooted (parent_of G) }
    ensures near { (G : Facts) (x y : ℕ) → is_neighbour G x y ≡ true → AreNear (parent_of G) x y }
    ensures same { (parent : ℕ → ℕ) (a : ℕ) → path parent a a ≡ a ∷ [] }
    ensures hops { (parent : ℕ → ℕ) (a b : ℕ) → IsRooted parent → a ≢ b → path parent a b ≡ a ∷ path parent (hop parent a b) b }
    ensures path { (parent : ℕ → ℕ) (a b : ℕ) → IsRooted parent → IsPath parent a b (path parent a b) }
    ensures one { (parent : ℕ → ℕ) (a b : ℕ) (enclaves : List ℕ) → IsRooted parent → IsPath parent a b enclaves
        → enclaves ≡ path parent a b }
    ensures toward { (parent : ℕ → ℕ) (born x d : ℕ) → IsRooted parent → x < born → d < born → x ≢ d
        → IsToward parent born x d (hop parent x d) }
    ensures beside { (parent : ℕ → ℕ) (born x d y : ℕ) → IsRooted parent → IsToward parent born x d y → AreNear parent x y }
    ensures nearer { (parent : ℕ → ℕ) (born x d y : ℕ) → IsRooted parent → IsToward parent born x d y
        → distance parent x d ≡ distance parent y d + 1 }
    ensures sides { (parent : ℕ → ℕ) (born x y d : ℕ) → IsRooted parent → AreNear parent x y → x < born → y < born → d < born
        → IsToward parent born x d y ⊎ IsToward parent born y d x }
    ensures stays { (parent later : ℕ → ℕ) (born more x d y : ℕ) → IsRooted parent
        → ((e : ℕ) → 0 < e → e < born → later e ≡ parent e) → born ≤ more → IsToward parent born x d y → IsToward later more x d y }
    ensures far { (parent later : ℕ → ℕ) (born x d : ℕ) → IsRooted parent → ((e : ℕ) → 0 < e → e < born → later e ≡ parent e)
        → x < born → d < born → distance later x d ≡ distance parent x d }
    ensures lives { (parent : ℕ → ℕ) (lives : ℕ → Bool) (a b : ℕ) → ((e : ℕ) → 0 < e → lives e ≡ true → lives (parent e) ≡ true)
        → lives a ≡ true → lives b ≡ true → AllByRecursion (λ e. lives e ≡ true) (path parent a b) }
    ensures above { (parent : ℕ → ℕ) (a e : ℕ) → IsRooted parent → 0 < e
        → is_above parent a e ≡ (a == e || is_above parent a (parent e)) }
    ensures host { (parent : ℕ → ℕ) (a : ℕ) → is_above parent a 0 ≡ (a == 0) }
{}

/// The records that are whole among the first bytes stay so when more are sent. Once so many of them were got, those
/// that are left are whole among the bytes that follow theirs.
pub fn whole_records_stay()
    ensures sent { (n : ℕ) (rs : List WireRecord) (r : WireRecord) → n ≤ length (spellings_of rs)
        → whole_records n (rs ++ r ∷ []) ≡ whole_records n rs }
    ensures bytes { (k n : ℕ) (rs : List WireRecord) → k ≤ length (whole_records n rs) → length (spellings_of (take k rs)) ≤ n }
    ensures got { (k n : ℕ) (rs : List WireRecord) → k ≤ length (whole_records n rs)
        → drop k (whole_records n rs) ≡ whole_records (n - length (spellings_of (take k rs))) (drop k rs) }
{}

/// Lines that are about one enclave, which is no virtual machine, change its view by themselves, and no other's. What an enclave
/// writes for records is its own.
pub fn lines_are_seen()
    ensures own { (G : Facts) (v : View) (lines : List JournalLine) → is_guest v.core.kind ≡ false → AreAbout G.holder v.me lines
        → seen_lines G v lines ≡ own_lines G.hand v lines }
    ensures others { (G : Facts) (y : Enclaves) (w : View) (lines : List JournalLine) → AreAbout G.holder y lines → w.me.0 ≢ y.0
        → seen_lines G w lines ≡ w }
    ensures of { (holder : Enclaves) (v : View) (x : Enclaves) (rs : List WireRecord) → (v.core.holder ≡ true → holder ≡ v.me)
        → AreOf holder v.me (lines_of_records v x rs) }
{}

/// What a command writes follows from the views of the enclaves that it names. The host is born with the first blocks.
pub fn views_answer()
    ensures answered { (commands : List Commands) → IsPlaced commands → IsAnswered (facts_after (journal_of commands)) }
    ensures host { (pool blocks : ℕ) (ns : Bool)
        → command_lines (facts_after (journal_of (command.Pool pool ∷ []))) (command.Host blocks ns)
        ≡ (if nat_lt pool blocks then refusal causes.NoBlocks else host_lines (first_blocks blocks) ns) }
{
    rows::<Page>();
}

/// An enclave that isn't born knows nothing, and none is a virtual machine. After each line the view of a living enclave is as it was
/// where the line isn't at it, and else a function of the view, the line and what is at hand; so what the lines of a command
/// change is what each of them changes. The records that arrive are answered by the view alone, record by record.
pub fn views_follow()
    ensures unborn { (commands : List Commands) → IsPlaced commands → (e : Enclaves)
        → (facts_after (journal_of commands)).born ≤ e.0
        → view_of (facts_after (journal_of commands)) e ≡ unborn_view (facts_after (journal_of commands)).pool e }
    ensures plain { (commands : List Commands) → IsPlaced commands → (e : Enclaves)
        → is_guest (view_of (facts_after (journal_of commands)) e).core.kind ≡ false }
    ensures lines { (commands : List Commands) → IsPlaced commands → Follows SeenAt [] (journal_of commands) }
    ensures seen { (commands : List Commands) (one : Commands) → IsPlaced (commands ++ one ∷ []) → (e : Enclaves)
        → is_living_enclave ((facts_after (journal_of (commands ++ one ∷ []))).enclave e.0) ≡ true
        → view_of (facts_after (journal_of (commands ++ one ∷ []))) e
        ≡ seen_lines (after_line (facts_after (journal_of commands)) (line.Do one)) (view_of (facts_after (journal_of commands)) e) (command_lines (facts_after (journal_of commands)) one) }
    ensures handled { (commands : List Commands) → IsPlaced commands → (x y : Enclaves) (n : ℕ)
        → IsTaking (facts_after (journal_of commands)) x y n → AreHandled (after_line (facts_after (journal_of commands)) (line.Took x y n)) x y }
{}

/// After each line of a journal the decoder at the end of each channel has what it had before, but for what the line changes of it:
/// bytes that are taken stand behind its rest, and the record that is got was at the front of it.
pub fn decoders_follow()
    ensures { (commands : List Commands) → IsPlaced commands → Follows FeedsFollowAt [] (journal_of commands) }
{
    spellings_are_read();
}

/// A delivery of a settle is that of a `deliver` of the same bytes, which isn't refused. A settle ends with `settled`
/// exactly where nothing waits any more, and with `waiting` exactly where something does after all its deliveries.
pub fn settles_deliver()
    ensures placed { (commands : List Commands) (x y : Enclaves) → IsPlaced commands
        → first_waiting (facts_after (journal_of commands)) ≡ Some (x, y)
        → IsPlaced (commands ++ command.Deliver x y (next_rest (facts_after (journal_of commands)) x y) ∷ []) }
    ensures lines { (commands : List Commands) (x y : Enclaves) → IsPlaced commands
        → first_waiting (facts_after (journal_of commands)) ≡ Some (x, y)
        → command_lines (facts_after (journal_of commands)) (command.Deliver x y (next_rest (facts_after (journal_of commands)) x y))
        ≡ deliver_lines (facts_after (journal_of commands)) x y (next_rest (facts_after (journal_of commands)) x y) }
    ensures ends { (commands : List Commands) (most : ℕ) → IsPlaced commands
        → EndsSettle most (command_lines (facts_after (journal_of commands)) (command.Settle most))
        (facts_after (journal_of (commands ++ command.Settle most ∷ []))) }
{
    spelling_length();
}

/// Along the journal of commands, each of which may stand after those before it, a settle says `settled` where nothing waits, and
/// `waiting` where something does and all its deliveries were made; both with the deliveries that it made.
pub fn journals_are_rested()
    ensures { (commands : List Commands) → IsPlaced commands → IsRested (journal_of commands) }
{}
