// Where bytes go.
ghost use Rattle.std.specs.Prelude.{◌≡◌, is_some, ◌<◌, ◌≤◌, List, ℕ, Option, length, IfOk};
ghost use Rattle.std.specs.Io.{WritesAtMost};
ghost use Rattle.std.specs.Io.KnownBytes.{WriteAppends};
ghost use Rattle.xm_edge.specs.Faults.{HasCause};

/// A write failed.
#[derive(Clone, Copy, Debug, PartialEq, Eq)]
pub struct WriteFailed;

/// Where bytes go, in order.
pub trait Sink {
    /// The bytes that were written, where the sink tells them. Whether it does never changes.
    ghost contents: { Self → Option (List ℕ) };

    /// How often it has failed. The count never falls, and may stand still at the last value of a u64.
    ghost faults: { Self → ℕ };

    /// Appends the first bytes of the piece, at least one, and answers how many. A call that fails appends
    /// nothing, and a later call may succeed.
    fn put(&mut self, piece: &[u8]) -> Result<usize, WriteFailed>
        requires { 0 < length piece.now }
        ensures some { IfOk result (λ n. 0 < n) }
        ensures bound { WritesAtMost result piece.now }
        ensures bytes { WriteAppends (contents self.old) (contents self.new) result piece.now }
        ensures tells { is_some (contents self.new) ≡ is_some (contents self.old) }
        ensures cause { HasCause (faults self.old) (faults self.new) result };
}
