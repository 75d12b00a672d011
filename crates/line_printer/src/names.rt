// The words that stand for values of the machine's small types.
ghost use Rattle.std.specs.Prelude.{◌≡◌, codes, if◌then◌else◌};
ghost use Rattle.xemem_language.specs.Spelling.{cause_word, kind_word, want_word, access_word};

use xm_num::{Access, Cause, Kind, Want};

/// The word of a cause.
pub fn cause_name(cause: Cause) -> &'static str
    ensures { result.now ≡ cause_word cause }
{
    match cause {
        Cause::NotReady => "NotReady",
        Cause::NoProcess => "NoProcess",
        Cause::Busy => "Busy",
        Cause::BadAlign => "BadAlign",
        Cause::BadRange => "BadRange",
        Cause::NoSegment => "NoSegment",
        Cause::Denied => "Denied",
        Cause::NoPermit => "NoPermit",
        Cause::Taken => "Taken",
        Cause::OwnerDied => "OwnerDied",
        Cause::NoFrames => "NoFrames",
        Cause::NoBlocks => "NoBlocks",
        Cause::TooLarge => "TooLarge",
        Cause::NotOwner => "NotOwner",
        Cause::NotMapped => "NotMapped",
        Cause::NoEnclave => "NoEnclave",
        Cause::BadParent => "BadParent",
        Cause::NameServerHeld => "NameServerHeld",
        Cause::NameServerTaken => "NameServerTaken",
        Cause::TooMany => "TooMany",
        Cause::NoLink => "NoLink",
    }
}

/// The word of an enclave's kind.
pub fn kind_name(kind: Kind) -> &'static str
    ensures { result.now ≡ kind_word kind }
{
    match kind {
        Kind::Host => "host",
        Kind::Cokernel => "cokernel",
        Kind::Vm => "vm",
    }
}

/// The word of what a touch wants.
pub fn want_name(want: Want) -> &'static str
    ensures { result.now ≡ want_word want }
{
    match want {
        Want::Read => "r",
        Want::Write => "w",
    }
}

/// The word of what a permit allows.
pub fn access_name(access: Access) -> &'static str
    ensures { result.now ≡ access_word access }
{
    match access {
        Access::ReadOnly => "ro",
        Access::ReadWrite => "rw",
    }
}

/// The word for whether an enclave is born with the name server.
pub fn ns_mark(ns: bool) -> &'static str
    ensures { result.now ≡ (if ns then codes "ns" else codes "-") }
{
    if ns { "ns" } else { "-" }
}
