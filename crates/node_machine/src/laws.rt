// The laws on which the machine rests, and what it has to say of its channels.
ghost use Rattle.std.specs.Prelude.{◌≡◌, ℕ, List, Bool, true};
ghost use Rattle.xm_num.specs.declared.Enclave.{Enclave as Enclaves};
ghost use Rattle.node_machine.specs.declared.pair.Hop.TheVariants as hops;
ghost use Rattle.node_machine.specs.declared.pair.Pair.{Pair as Pairs};
ghost use Rattle.node_machine.specs.Laws.{MachineLaws};
ghost use Rattle.node_machine.specs.Machine.{AreAbove, IsPairAt, hop_of};

use byte_link::bytes_follow_calls;
use xemem_wire::laws::{front_of_spellings, spelling_length};

/// All laws of the crates below.
pub fn laws()
    ensures { MachineLaws }
{
    front_of_spellings();
    spelling_length();
    bytes_follow_calls();
}

/// Which channel goes from one enclave to another: the one up from a child to its parent, or the one down from it.
pub fn hops_are_pairs()
    ensures up { (pairs : List Pairs) (known : Bool) (x y : Enclaves) (i : ℕ) → hop_of pairs known x y ≡ hops.Up i → IsPairAt pairs i x.0 y.0 }
    ensures down { (pairs : List Pairs) (known : Bool) (x y : Enclaves) (i : ℕ) → hop_of pairs known x y ≡ hops.Down i → IsPairAt pairs i y.0 x.0 }
    ensures to_up { (pairs : List Pairs) (x y : Enclaves) (i : ℕ) → IsPairAt pairs i x.0 y.0 → hop_of pairs true x y ≡ hops.Up i }
    ensures to_down { (pairs : List Pairs) (x y : Enclaves) (i : ℕ) → AreAbove pairs → IsPairAt pairs i y.0 x.0 → hop_of pairs true x y ≡ hops.Down i }
{}
