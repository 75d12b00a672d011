// What stands after a record's header: the table of the kinds' fields, and what follows from it.
ghost use Rattle.std.specs.Prelude.{◌≡◌, ℕ, ◌+◌, ◌<◌, ◌≤◌, ◌++◌, length, take, slice_index, slice_get, IfSome, OnOk, OnErr};
ghost use Rattle.xemem_wire.specs.Table.{kind_of};
ghost use Rattle.xemem_wire.specs.Fields.{bytes_in, limit_of, number_at_front, is_allowed, fields_of_kind, fields_length, length_of_kind, fields_spelling, fields_numbers, are_allowed, fields_fault, name_number, name_of, owner_number, numbers_of, body_of};

use crate::judge::{destination_of, is_enclave, u16_at, u32_at};
use crate::{BadField, Body, WireFault};
use std::alloc::AllocError;
use xm_num::{Apid, Enclave, Segid};

/// How many bytes a number has.
#[derive(Clone, Copy, Debug, PartialEq, Eq)]
pub(crate) enum Width {
    Two,
    Four,
    Eight,
}

/// A field: its width, its lowest and its highest number, whether 65535 stands for none, and what is wrong with any other.
#[derive(Clone, Copy, Debug, PartialEq, Eq)]
pub(crate) struct Field {
    pub(crate) width: Width,
    pub(crate) least: u64,
    pub(crate) most: u64,
    pub(crate) or_none: bool,
    pub(crate) fault: WireFault,
}

const SEGID: Field = Field {
    width: Width::Eight,
    least: 0,
    most: 9_223_372_036_854_775_807,
    or_none: false,
    fault: WireFault::Field,
};

const OWNER: Field = Field {
    width: Width::Two,
    least: 0,
    most: 255,
    or_none: true,
    fault: WireFault::Field,
};

const ZERO: Field = Field {
    width: Width::Two,
    least: 0,
    most: 0,
    or_none: false,
    fault: WireFault::Zero,
};

/// A user or a group.
const USER: Field = Field {
    width: Width::Four,
    least: 0,
    most: 4_294_967_295,
    or_none: false,
    fault: WireFault::Field,
};

/// To read, or to read and to write.
const FLAGS: Field = Field {
    width: Width::Four,
    least: 1,
    most: 2,
    or_none: false,
    fault: WireFault::Field,
};

const PAGES: Field = Field {
    width: Width::Four,
    least: 1,
    most: 4096,
    or_none: false,
    fault: WireFault::Field,
};

/// `NoSegment` or `Denied`.
const GET_CAUSE: Field = Field {
    width: Width::Four,
    least: 6,
    most: 7,
    or_none: false,
    fault: WireFault::Field,
};

const APID: Field = Field {
    width: Width::Four,
    least: 1,
    most: 4_294_967_295,
    or_none: false,
    fault: WireFault::Field,
};

/// The fields of a kind, in order.
pub(crate) fn fields_of_kind(kind: u8) -> &'static [Field]
    ensures fields { result.now ≡ fields_of_kind kind }
    ensures short { fields_length result.now ≤ 16388 }
{
    match kind {
        6 | 7 | 8 => &[SEGID],
        9 => &[SEGID, OWNER, ZERO],
        10 => &[SEGID, FLAGS, USER, USER],
        11 => &[PAGES],
        12 => &[GET_CAUSE],
        13 => &[APID],
        _ => &[],
    }
}

/// How many bytes a number of that width has.
fn bytes_in(width: Width) -> usize
    ensures { result ≡ bytes_in width }
{
    match width {
        Width::Two => 2,
        Width::Four => 4,
        Width::Eight => 8,
    }
}

/// How many bytes these fields have.
fn fields_length(fields: &[Field]) -> usize
    requires { fields_length fields.now ≤ 16388 }
    ensures { result ≡ fields_length fields.now }
{
    match fields.split_first() {
        None => 0,
        Some((field, later)) => bytes_in(field.width) + fields_length(later),
    }
}

/// The length of the records of a kind.
pub(crate) fn length_of_kind(kind: u8) -> u32
    ensures { result ≡ length_of_kind kind }
{
    16 + fields_length(fields_of_kind(kind)) as u32
}

/// The number of that width at the front.
fn number_at_front(width: Width, bytes: &[u8]) -> u64
    requires { bytes_in width ≤ length bytes.now }
    ensures number { result ≡ number_at_front width bytes.now }
    ensures room { result < limit_of width }
{
    match width {
        Width::Two => u64::from(u16_at(bytes, 0)),
        Width::Four => u64::from(u32_at(bytes, 0)),
        Width::Eight => u64::from(u32_at(bytes, 0)) + u64::from(u32_at(bytes, 4)) * 4_294_967_296,
    }
}

/// Whether a field may have that number.
fn is_allowed(field: Field, number: u64) -> bool
    ensures { result ≡ is_allowed field number }
{
    (field.or_none && number == 65535) || (field.least <= number && number <= field.most)
}

/// The first of these fields that is there and isn't allowed. They begin at that place of the record.
pub(crate) fn fields_fault(fields: &[Field], bytes: &[u8], place: u64) -> Option<BadField>
    requires { place + fields_length fields.now ≤ 16404 }
    ensures fault { result ≡ fields_fault place fields.now bytes.now }
    ensures place { IfSome result (λ bad. bad.place < 16404) }
{
    let (field, later) = fields.split_first()?;
    let width = bytes_in(field.width);
    if bytes.len() < width {
        return None;
    }
    if !is_allowed(*field, number_at_front(field.width, bytes)) {
        return Some(BadField {
            fault: field.fault,
            place,
        });
    }
    fields_fault(later, &bytes[width..], place + width as u64)
}

/// The number of the field at that position, or 0 past the last field.
fn field_number(fields: &[Field], bytes: &[u8], position: usize) -> u64
    requires { fields_length fields.now ≤ length bytes.now }
    ensures number { result ≡ slice_index (fields_numbers fields.now bytes.now) position }
    ensures room { IfSome (slice_get fields.now position) (λ field. result < limit_of field.width) }
{
    let Some((field, later)) = fields.split_first() else {
        return 0;
    };
    if position == 0 {
        return number_at_front(field.width, bytes);
    }
    field_number(later, &bytes[bytes_in(field.width)..], position - 1)
}

/// Whether these are numbers that the fields may have, one for each.
pub(crate) fn are_allowed(fields: &[Field], numbers: &[u64]) -> bool
    ensures { result ≡ are_allowed fields.now numbers.now }
{
    match (fields.split_first(), numbers.split_first()) {
        (None, None) => true,
        (Some((field, later)), Some((number, rest))) => {
            is_allowed(*field, *number) && are_allowed(later, rest)
        }
        _ => false,
    }
}

/// Appends the fields with these numbers.
pub(crate) fn append_fields(
    fields: &[Field],
    numbers: &[u64],
    out: &mut Vec<u8>,
) -> Result<(), AllocError>
    ensures ok { OnOk result (out.new.items ≡ out.old.items ++ fields_spelling fields.now numbers.now) }
    ensures err { OnErr result (out.new.items ≡ out.old.items) }
{
    let (Some((field, later)), Some((number, rest))) = (fields.split_first(), numbers.split_first())
    else {
        return Ok(());
    };
    let before = out.len();
    out.extend_from_slice(&number.to_le_bytes()[..bytes_in(field.width)])?;
    let appended = append_fields(later, rest, out);
    if appended.is_err() {
        out.truncate(before);
    }
    appended
}

/// A segid or an apid as a number. A negative one stands as the highest, which its field doesn't allow.
fn name_number(name: i64) -> u64
    ensures { result ≡ name_number name }
{
    if name < 0 { u64::MAX } else { name as u64 }
}

/// An owner as a number. One that is no enclave's number stands as one that its field doesn't allow.
fn owner_number(owner: Option<Enclave>) -> u64
    ensures { result ≡ owner_number owner }
{
    match owner {
        None => 65535,
        Some(enclave) if is_enclave(enclave.0) => u64::from(enclave.0),
        Some(_) => 256,
    }
}

/// The numbers of a body's fields, and 0 behind them.
pub(crate) fn numbers_of(body: &Body) -> [u64; 4]
    ensures { take (length (fields_of_kind (kind_of body.now))) result ≡ numbers_of body.now }
{
    match body {
        Body::Named { segid } | Body::Unname { segid } | Body::Lookup { segid } => {
            [name_number(segid.0), 0, 0, 0]
        }
        Body::Found { segid, owner } => [name_number(segid.0), owner_number(*owner), 0, 0],
        Body::Get {
            segid,
            flags,
            uid,
            gid,
        } => [
            name_number(segid.0),
            u64::from(*flags),
            u64::from(*uid),
            u64::from(*gid),
        ],
        Body::Granted { pages } => [u64::from(*pages), 0, 0, 0],
        Body::GetRefused { cause } => [u64::from(*cause), 0, 0, 0],
        Body::Release { apid } => [name_number(apid.0), 0, 0, 0],
        _ => [0, 0, 0, 0],
    }
}

/// What a number stands for as a segid or an apid, the other way round.
fn name_of(number: u64) -> i64
    ensures { result ≡ name_of number }
{
    if number <= 9_223_372_036_854_775_807 {
        number as i64
    } else {
        -1
    }
}

/// The body of a built kind, by the bytes of its fields.
pub(crate) fn body_in(kind: u8, bytes: &[u8]) -> Body
    requires { fields_length (fields_of_kind kind) ≤ length bytes.now }
    ensures { result ≡ body_of kind (fields_numbers (fields_of_kind kind) bytes.now) }
{
    let fields = fields_of_kind(kind);
    match kind {
        1 => Body::Query,
        2 => Body::Here,
        3 => Body::Register,
        4 => Body::Admit,
        5 => Body::NameReq,
        6 => Body::Named {
            segid: Segid(name_of(field_number(fields, bytes, 0))),
        },
        7 => Body::Unname {
            segid: Segid(name_of(field_number(fields, bytes, 0))),
        },
        8 => Body::Lookup {
            segid: Segid(name_of(field_number(fields, bytes, 0))),
        },
        9 => Body::Found {
            segid: Segid(name_of(field_number(fields, bytes, 0))),
            owner: destination_of(field_number(fields, bytes, 1) as u16),
        },
        10 => Body::Get {
            segid: Segid(name_of(field_number(fields, bytes, 0))),
            flags: field_number(fields, bytes, 1) as u32,
            uid: field_number(fields, bytes, 2) as u32,
            gid: field_number(fields, bytes, 3) as u32,
        },
        11 => Body::Granted {
            pages: field_number(fields, bytes, 0) as u32,
        },
        12 => Body::GetRefused {
            cause: field_number(fields, bytes, 0) as u32,
        },
        _ => Body::Release {
            apid: Apid(name_of(field_number(fields, bytes, 0))),
        },
    }
}
