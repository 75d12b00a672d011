// The whole records at the front of a stream's bytes.
ghost use Rattle.std.specs.Prelude.{◌≡◌, ◌<◌, ◌≤◌, length, drop, None};
ghost use Rattle.std.specs.Option.{option_map};
ghost use Rattle.xemem_wire.specs.Fields.{length_of_kind};
ghost use Rattle.xemem_wire.specs.Spelling.{spelling_of};
ghost use Rattle.xemem_wire.specs.Faults.{kind_at, fault_of};
ghost use Rattle.xemem_wire.specs.Stream.{record_at, front_record, rest_of};

use crate::Record;
use crate::fields::body_in;
use crate::judge::{HEADER, destination_of, fault_in, u16_at, u32_at};
use xm_num::Enclave;

/// The record whose fields these bytes have.
#[tactic(auto, unfolding(crate::specs::Stream::record_at))]
pub(crate) fn record_in(front: &[u8]) -> Record
    requires { length_of_kind (kind_at front.now) ≤ length front.now }
    ensures { result ≡ record_at front.now }
{
    Record {
        origin: Enclave(u16_at(front, 6)),
        dest: destination_of(u16_at(front, 8)),
        call: u32_at(front, 12),
        body: body_in(front[5], &front[HEADER..]),
    }
}

/// The length of the record with which these bytes begin, where it is whole and has no bad field.
pub(crate) fn whole_length(front: &[u8]) -> Option<usize>
    ensures { result ≡ option_map (λ r. length (spelling_of r)) (front_record front.now) }
{
    if front.len() < HEADER || fault_in(front).is_some() {
        return None;
    }
    let length = u32_at(front, 0) as usize;
    if front.len() < length {
        return None;
    }
    Some(length)
}

/// Where the bytes begin that come after the last whole record, from a place on where a record may begin.
pub(crate) fn rest_start(bytes: &[u8], from: usize) -> usize
    requires { from ≤ length bytes.now }
    ensures order { from ≤ result }
    ensures within { result ≤ length bytes.now }
    ensures rest { drop result bytes.now ≡ rest_of (drop from bytes.now) }
{
    let mut at = from;
    while let Some(length) = whole_length(&bytes[at..]) {
        at += length;
    }
    at
}

/// How many bytes there are, which are no whole record yet and have no bad field.
pub(crate) fn short_length(rest: &[u8]) -> u32
    requires partial { front_record rest.now ≡ None }
    requires fine { fault_of rest.now ≡ None }
    ensures length { result ≡ length rest.now }
    ensures short { result < 16404 }
{
    rest.len() as u32
}
