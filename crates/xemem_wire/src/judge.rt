// Which field of a record's front is the first that isn't allowed.
ghost use Rattle.std.specs.Prelude.{◌≡◌, ℕ, ◌+◌, ◌<◌, ◌≤◌, length, drop, IfSome};
ghost use Rattle.xemem_wire.specs.Table.{u16_at, u32_at, is_undirected, has_call, is_kind_built, is_enclave, is_destination, is_call};
ghost use Rattle.xemem_language.specs.Destinations.{destination_of};
ghost use Rattle.xemem_wire.specs.Faults.{is_failed, range_check, version_check, kind_check, kind_length_check, origin_check, destination_check, zero_check, call_check, kind_at, header_checks, first_failed, fault_of};
ghost use Rattle.xemem_wire.specs.Fields.{fields_of_kind, fields_fault};

use crate::fields::{fields_fault, fields_of_kind, length_of_kind};
use crate::{BadField, WireFault};
use xm_num::Enclave;

/// The bytes of a header.
pub(crate) const HEADER: usize = 16;

/// The two-byte number at that place.
pub(crate) fn u16_at(bytes: &[u8], place: usize) -> u16
    requires { place + 2 ≤ length bytes.now }
    ensures { result ≡ u16_at bytes.now place }
{
    u16::from_le_bytes([bytes[place], bytes[place + 1]])
}

/// The four-byte number at that place.
pub(crate) fn u32_at(bytes: &[u8], place: usize) -> u32
    requires { place + 4 ≤ length bytes.now }
    ensures { result ≡ u32_at bytes.now place }
{
    u32::from_le_bytes([
        bytes[place],
        bytes[place + 1],
        bytes[place + 2],
        bytes[place + 3],
    ])
}

/// Whether records of that kind name no destination.
pub(crate) fn is_undirected(kind: u8) -> bool
    ensures { result ≡ is_undirected kind }
{
    matches!(kind, 1 | 2 | 3 | 5 | 7 | 8 | 18 | 20)
}

/// Whether records of that kind serve a call.
pub(crate) fn has_call(kind: u8) -> bool
    ensures { result ≡ has_call kind }
{
    matches!(kind, 5..=17)
}

/// Whether records of that kind are built.
pub(crate) fn is_built(kind: u8) -> bool
    ensures { result ≡ is_kind_built kind }
{
    matches!(kind, 1..=13)
}

/// Whether that is the number of an enclave.
pub(crate) fn is_enclave(number: u16) -> bool
    ensures { result ≡ is_enclave number }
{
    number <= 255
}

/// Whether a record of that kind may go there.
pub(crate) fn is_destination(kind: u8, dest: Option<Enclave>) -> bool
    ensures { result ≡ is_destination kind dest }
{
    match dest {
        None => is_undirected(kind),
        Some(enclave) => !is_undirected(kind) && is_enclave(enclave.0),
    }
}

/// Whether a record of that kind may carry that call.
pub(crate) fn is_call(kind: u8, call: u32) -> bool
    ensures { result ≡ is_call kind call }
{
    if has_call(kind) { 1 <= call } else { call == 0 }
}

/// The destination that two bytes stand for.
pub(crate) fn destination_of(number: u16) -> Option<Enclave>
    ensures { result ≡ destination_of number }
{
    if number == u16::MAX {
        None
    } else {
        Some(Enclave(number))
    }
}

/// Whether the length is there and out of its range.
fn fails_range(front: &[u8]) -> bool
    ensures { result ≡ is_failed front.now range_check }
{
    front.len() >= 4 && !(16..=16404).contains(&u32_at(front, 0))
}

/// Whether the version is there and isn't 1.
fn fails_version(front: &[u8]) -> bool
    ensures { result ≡ is_failed front.now version_check }
{
    front.len() >= 5 && front[4] != 1
}

/// Whether the kind is there and isn't built.
fn fails_kind(front: &[u8]) -> bool
    ensures { result ≡ is_failed front.now kind_check }
{
    front.len() >= 6 && !is_built(front[5])
}

/// Whether the kind is there and has another length.
fn fails_kind_length(front: &[u8]) -> bool
    ensures { result ≡ is_failed front.now kind_length_check }
{
    front.len() >= 6 && u32_at(front, 0) != length_of_kind(front[5])
}

/// Whether the origin is there and is no enclave.
fn fails_origin(front: &[u8]) -> bool
    ensures { result ≡ is_failed front.now origin_check }
{
    front.len() >= 8 && !is_enclave(u16_at(front, 6))
}

/// Whether the destination is there and isn't one of the kind.
fn fails_destination(front: &[u8]) -> bool
    ensures { result ≡ is_failed front.now destination_check }
{
    front.len() >= 10 && !is_destination(front[5], destination_of(u16_at(front, 8)))
}

/// Whether the zero field is there and isn't 0.
fn fails_zero(front: &[u8]) -> bool
    ensures { result ≡ is_failed front.now zero_check }
{
    front.len() >= 12 && u16_at(front, 10) != 0
}

/// Whether the call is there and isn't one of the kind.
fn fails_call(front: &[u8]) -> bool
    ensures { result ≡ is_failed front.now call_check }
{
    front.len() >= 16 && !is_call(front[5], u32_at(front, 12))
}

/// The first bad field of the header.
#[tactic(auto, unfolding(crate::specs::Faults::first_failed))]
fn header_fault(front: &[u8]) -> Option<BadField>
    ensures fault { result ≡ first_failed header_checks front.now }
    ensures place { IfSome result (λ bad. bad.place < 16) }
{
    let (fault, place) = if fails_range(front) {
        (WireFault::Length, 0)
    } else if fails_version(front) {
        (WireFault::Version, 4)
    } else if fails_kind(front) {
        (WireFault::Kind, 5)
    } else if fails_kind_length(front) {
        (WireFault::Length, 0)
    } else if fails_origin(front) {
        (WireFault::Field, 6)
    } else if fails_destination(front) {
        (WireFault::Field, 8)
    } else if fails_zero(front) {
        (WireFault::Zero, 10)
    } else if fails_call(front) {
        (WireFault::Field, 12)
    } else {
        return None;
    };
    Some(BadField { fault, place })
}

/// The first bad field after the header.
fn body_fault(front: &[u8]) -> Option<BadField>
    ensures fault { result ≡ fields_fault 16 (fields_of_kind (kind_at front.now)) (drop 16 front.now) }
    ensures place { IfSome result (λ bad. bad.place < 16404) }
{
    if front.len() < HEADER {
        return None;
    }
    fields_fault(fields_of_kind(front[5]), &front[HEADER..], 16)
}

/// The first bad field of the record that these bytes begin.
#[tactic(auto, unfolding(crate::specs::Faults::fault_of))]
pub(crate) fn fault_in(front: &[u8]) -> Option<BadField>
    ensures fault { result ≡ fault_of front.now }
    ensures place { IfSome result (λ bad. bad.place < 16404) }
{
    match header_fault(front) {
        None => body_fault(front),
        bad => bad,
    }
}
