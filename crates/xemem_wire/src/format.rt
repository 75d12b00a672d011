// What is wrong with bytes.

/// What is wrong with a field: the length, the version, the kind, a zero field, or any other.
#[derive(Clone, Copy, Debug, PartialEq, Eq)]
pub enum WireFault {
    Length,
    Version,
    Kind,
    Zero,
    Field,
}

/// A field that isn't allowed, by the place of its first byte.
#[derive(Clone, Copy, Debug, PartialEq, Eq)]
pub struct BadField {
    pub fault: WireFault,
    pub place: u64,
}

/// Why a piece of a stream wasn't taken. The place is counted from the first byte of the stream.
#[derive(Clone, Copy, Debug, PartialEq, Eq)]
pub enum FeedFault {
    Bad { fault: WireFault, place: u64 },
    Memory,
}
