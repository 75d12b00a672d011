// Neighbours by their side, and by their numbers.
ghost use Rattle.std.specs.Prelude.{◌≡◌};
ghost use Rattle.enclave_node.specs.Sides as spec;

use xm_num::{Enclave, Neighbour};

/// The number of a neighbour of an enclave with this parent.
pub fn enclave_of(parent: Enclave, of: Neighbour) -> Enclave
    ensures { result ≡ spec.enclave_of parent of }
{
    match of {
        Neighbour::Up => parent,
        Neighbour::Down(child) => child,
    }
}

/// On which side of an enclave with this parent the neighbour of that number is.
pub fn side_of(parent: Enclave, of: Enclave) -> Neighbour
    ensures { result ≡ spec.side_of parent of }
{
    if of.0 == parent.0 {
        Neighbour::Up
    } else {
        Neighbour::Down(of)
    }
}
