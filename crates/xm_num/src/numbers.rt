// Causes and their numbers, which are what records carry.
ghost use Rattle.std.specs.Prelude.{◌≡◌, ℕ, ◌≤◌, ◌↔◌, IsSome, IfSome};

use crate::Cause;

impl Cause {
    ghost use Rattle.xm_num.specs.Causes.{number_of};
    ghost use Rattle.xm_num.specs.declared.Cause.{Cause};

    /// The number that stands for this cause in a record.
    pub fn number(self) -> u32
        ensures number { result ≡ number_of self }
        ensures range { (1 ≤ result) × (result ≤ 21) }
    {
        match self {
            Cause::NotReady => 1,
            Cause::NoProcess => 2,
            Cause::Busy => 3,
            Cause::BadAlign => 4,
            Cause::BadRange => 5,
            Cause::NoSegment => 6,
            Cause::Denied => 7,
            Cause::NoPermit => 8,
            Cause::Taken => 9,
            Cause::OwnerDied => 10,
            Cause::NoFrames => 11,
            Cause::NoBlocks => 12,
            Cause::TooLarge => 13,
            Cause::NotOwner => 14,
            Cause::NotMapped => 15,
            Cause::NoEnclave => 16,
            Cause::BadParent => 17,
            Cause::NameServerHeld => 18,
            Cause::NameServerTaken => 19,
            Cause::TooMany => 20,
            Cause::NoLink => 21,
        }
    }

    /// The cause with that number, where there is one.
    pub fn from_number(n: u32) -> Option<Cause>
        ensures found { IsSome result ↔ ((1 ≤ n) × (n ≤ 21)) }
        ensures number { IfSome result (λ cause. number_of cause ≡ n) }
        ensures inverse { (cause : Cause) → number_of cause ≡ n → result ≡ Some cause }
    {
        match n {
            1 => Some(Cause::NotReady),
            2 => Some(Cause::NoProcess),
            3 => Some(Cause::Busy),
            4 => Some(Cause::BadAlign),
            5 => Some(Cause::BadRange),
            6 => Some(Cause::NoSegment),
            7 => Some(Cause::Denied),
            8 => Some(Cause::NoPermit),
            9 => Some(Cause::Taken),
            10 => Some(Cause::OwnerDied),
            11 => Some(Cause::NoFrames),
            12 => Some(Cause::NoBlocks),
            13 => Some(Cause::TooLarge),
            14 => Some(Cause::NotOwner),
            15 => Some(Cause::NotMapped),
            16 => Some(Cause::NoEnclave),
            17 => Some(Cause::BadParent),
            18 => Some(Cause::NameServerHeld),
            19 => Some(Cause::NameServerTaken),
            20 => Some(Cause::TooMany),
            21 => Some(Cause::NoLink),
            _ => None,
        }
    }
}
