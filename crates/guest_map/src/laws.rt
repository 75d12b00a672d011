// Laws of a guest's names, for the crates above.
ghost use Rattle.guest_map.specs.GuestLaws.{GuestLaws};

use crate::entry::EntryRow;
use xm_num::laws::row_laws;

/// A guest stays one: fresh guest frames are drawn upwards, and no two entries have one. What was admitted has the new guest
/// frames, what was dropped has none any more, and each other guest frame names what it did.
pub fn guest_laws()
    ensures { GuestLaws }
{
    row_laws::<EntryRow>();
}
