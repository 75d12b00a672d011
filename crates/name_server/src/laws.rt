// Laws of the names over any calls, for the crates above.
ghost use Rattle.std.specs.Prelude.{◌≡◌, ℕ, List, reverse};
ghost use Rattle.std.specs.List.{range_with_len};
ghost use Rattle.xm_num.specs.Rows.{at};
ghost use Rattle.name_server.specs.Names.{AreNames, no_names};
ghost use Rattle.name_server.specs.Draws.{NameEvent, after_name_events, segids_drawn, count_drawn, owner_by};

use xm_num::Enclave;
use xm_num::laws::row_laws;

/// Over any calls segids are drawn from 1 upwards, each once. The names are those that were drawn and weren't unnamed
/// since, each with the owner for whom it was drawn. Their segids ascend, so no two names have one segid.
pub fn names_are_filters()
    ensures segids { (events : List NameEvent) → segids_drawn no_names events ≡ range_with_len 1 (count_drawn events) }
    ensures drawn { (events : List NameEvent) → (after_name_events no_names events).drawn ≡ count_drawn (reverse events) }
    ensures owners { (events : List NameEvent) (segid : ℕ) → at (after_name_events no_names events).pairs segid ≡ owner_by segid (reverse events) }
    ensures names { (events : List NameEvent) → AreNames (after_name_events no_names events) }
{
    row_laws::<Enclave>();
}
