// The names of causes, accesses and kinds.
ghost use Rattle.std.specs.Prelude.{◌≡◌, map};
ghost use Rattle.line_reader.specs.Slots.{named};

use xm_num::{Access, Cause, Kind};

/// The names of accesses.
pub const ACCESSES: [(&[u8], Access); 2] = [(b"ro", Access::ReadOnly), (b"rw", Access::ReadWrite)];

/// The names of kinds.
pub const KINDS: [(&[u8], Kind); 3] = [
    (b"host", Kind::Host),
    (b"cokernel", Kind::Cokernel),
    (b"vm", Kind::Vm),
];

/// Whether an enclave is born with the name server.
pub const MARKS: [(&[u8], bool); 2] = [(b"ns", true), (b"-", false)];

/// The names of causes.
pub const CAUSES: [(&[u8], Cause); 21] = [
    (b"NotReady", Cause::NotReady),
    (b"NoProcess", Cause::NoProcess),
    (b"Busy", Cause::Busy),
    (b"BadAlign", Cause::BadAlign),
    (b"BadRange", Cause::BadRange),
    (b"NoSegment", Cause::NoSegment),
    (b"Denied", Cause::Denied),
    (b"NoPermit", Cause::NoPermit),
    (b"Taken", Cause::Taken),
    (b"OwnerDied", Cause::OwnerDied),
    (b"NoFrames", Cause::NoFrames),
    (b"NoBlocks", Cause::NoBlocks),
    (b"TooLarge", Cause::TooLarge),
    (b"NotOwner", Cause::NotOwner),
    (b"NotMapped", Cause::NotMapped),
    (b"NoEnclave", Cause::NoEnclave),
    (b"BadParent", Cause::BadParent),
    (b"NameServerHeld", Cause::NameServerHeld),
    (b"NameServerTaken", Cause::NameServerTaken),
    (b"TooMany", Cause::TooMany),
    (b"NoLink", Cause::NoLink),
];

/// What the first name stands for that the word is.
pub fn find<T: Copy>(names: &[(&[u8], T)], word: &[u8]) -> Option<T>
    ensures { result ≡ named (map (λ entry. (entry.0.now, entry.1)) names.now) word.now }
{
    for (name, value) in names {
        if word == *name {
            return Some(*value);
        }
    }
    None
}
