// Where bytes come from.
ghost use Rattle.std.specs.Prelude.{◌≡◌, is_some, ◌<◌, List, ℕ, Option, length};
ghost use Rattle.std.specs.Io.{ReadsAtMost};
ghost use Rattle.std.specs.Io.KnownBytes.{ReadConsumes};
ghost use Rattle.xm_edge.specs.Ends.{GivesNoneAtEnd};
ghost use Rattle.xm_edge.specs.Faults.{HasCause};

/// A read failed.
#[derive(Clone, Copy, Debug, PartialEq, Eq)]
pub struct ReadFailed;

/// Where bytes come from, in order.
pub trait Source {
    /// The bytes that are left, where the source tells them. Whether it does never changes.
    ghost left: { Self → Option (List ℕ) };

    /// How often it has failed. The count never falls, and may stand still at the last value of a u64.
    ghost faults: { Self → ℕ };

    /// Takes the next bytes into the front of `into`, and answers how many. What stands in `into` after them isn't
    /// said. A call that fails takes nothing, and a later call may succeed.
    fn take(&mut self, into: &mut [u8]) -> Result<usize, ReadFailed>
        requires { 0 < length into.old }
        ensures bound { ReadsAtMost result into.new }
        ensures bytes { ReadConsumes (left self.old) (left self.new) result into.new }
        ensures ends { GivesNoneAtEnd (left self.old) result }
        ensures tells { is_some (left self.new) ≡ is_some (left self.old) }
        ensures cause { HasCause (faults self.old) (faults self.new) result };
}
