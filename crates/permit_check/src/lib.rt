//! The permit rule: whether a user may have an access to a segment, by the mode that its maker gave it.
//!
//! A mode has three octal digits, each for one class of users: the maker's user, the maker's group, and all others.
//! The 4 in a digit lets its class read, and the 2 write. No user is above the rule.
#![tactic(auto)]

pub mod laws;

ghost use Rattle.std.specs.Prelude.{◌≡◌, ◌<◌};
ghost use Rattle.permit_check.specs.Permits as permits;

use xm_num::Access;

/// The bit of a digit that lets read.
const READ: u16 = 4;

/// The bit of a digit that lets write.
const WRITE: u16 = 2;

/// Whether a user has the access by the mode. One class alone is asked: the maker's user, else the maker's group, else
/// all others. What stands above the three digits of the mode counts for nothing.
#[tactic(auto, unfolding(crate::specs::Permits::is_met))]
pub fn met(mode: u16, maker_uid: u32, maker_gid: u32, uid: u32, gid: u32, access: Access) -> bool
    ensures { result ≡ permits.is_met mode maker_uid maker_gid uid gid access }
{
    grants(digit_for(mode, maker_uid, maker_gid, uid, gid), access)
}

// The digit of the mode for the class that the user is of.
fn digit_for(mode: u16, maker_uid: u32, maker_gid: u32, uid: u32, gid: u32) -> u16
    ensures digit { result ≡ permits.class_digit mode (permits.class_of maker_uid maker_gid uid gid) }
    ensures octal { result < 8 }
{
    if uid == maker_uid {
        (mode >> 6) & 7
    } else if gid == maker_gid {
        (mode >> 3) & 7
    } else {
        mode & 7
    }
}

// Whether an octal digit grants the access.
fn grants(digit: u16, access: Access) -> bool
    requires { digit < 8 }
    ensures { result ≡ permits.grants digit access }
{
    let needed = match access {
        Access::ReadOnly => READ,
        Access::ReadWrite => READ | WRITE,
    };
    digit & needed == needed
}
