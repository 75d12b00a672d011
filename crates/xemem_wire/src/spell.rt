// A record as bytes.
ghost use Rattle.std.specs.Prelude.{◌≡◌, ◌++◌, IsTrue, OnOk, OnErr};
ghost use Rattle.xemem_wire.specs.Table.{kind_of};
ghost use Rattle.xemem_language.specs.Destinations.{destination_number};
ghost use Rattle.xemem_wire.specs.Spelling.{header_of, spelling_of, is_body, is_valid};

use crate::fields::{append_fields, are_allowed, fields_of_kind, length_of_kind, numbers_of};
use crate::judge::{is_built, is_call, is_destination, is_enclave};
use crate::{Body, Record};
use std::alloc::AllocError;
use xm_num::Enclave;

/// The number of a kind.
fn kind_number(body: &Body) -> u8
    ensures { result ≡ kind_of body.now }
{
    match body {
        Body::Query => 1,
        Body::Here => 2,
        Body::Register => 3,
        Body::Admit => 4,
        Body::NameReq => 5,
        Body::Named { segid: _ } => 6,
        Body::Unname { segid: _ } => 7,
        Body::Lookup { segid: _ } => 8,
        Body::Found { segid: _, owner: _ } => 9,
        Body::Get {
            segid: _,
            flags: _,
            uid: _,
            gid: _,
        } => 10,
        Body::Granted { pages: _ } => 11,
        Body::GetRefused { cause: _ } => 12,
        Body::Release { apid: _ } => 13,
        Body::Attach {
            apid: _,
            offset: _,
            pages: _,
        } => 14,
        Body::Attached { frames: _ } => 15,
        Body::AttachRefused { cause: _ } => 16,
        Body::Detach => 17,
        Body::Died { enclave: _ } => 18,
        Body::Dead { enclave: _ } => 19,
        Body::Confirm { enclave: _ } => 20,
    }
}

/// Whether the kind is built, and each of its fields has a number that it may have.
fn is_body(body: &Body) -> bool
    ensures { result ≡ is_body body.now }
{
    let kind = kind_number(body);
    let fields = fields_of_kind(kind);
    is_built(kind) && are_allowed(fields, &numbers_of(body)[..fields.len()])
}

/// Whether every number of the record is one that its field may have. A kind that isn't built has no valid record.
#[tactic(auto, unfolding(crate::specs::Spelling::is_valid))]
pub fn valid(rec: &Record) -> bool
    ensures { result ≡ is_valid rec.now }
{
    let kind = kind_number(&rec.body);
    is_body(&rec.body)
        && is_enclave(rec.origin.0)
        && is_destination(kind, rec.dest)
        && is_call(kind, rec.call)
}

/// A destination in two bytes.
fn destination_number(dest: Option<Enclave>) -> u16
    ensures { result ≡ destination_number dest }
{
    match dest {
        None => u16::MAX,
        Some(enclave) => enclave.0,
    }
}

/// The header of a record of that length.
#[tactic(auto, unfolding(crate::specs::Spelling::header_of))]
fn header(rec: &Record, length: u32) -> [u8; 16]
    ensures { result ≡ header_of length rec.now }
{
    let kind = kind_number(&rec.body);
    let length = length.to_le_bytes();
    let origin = rec.origin.0.to_le_bytes();
    let dest = destination_number(rec.dest).to_le_bytes();
    let call = rec.call.to_le_bytes();
    [
        length[0], length[1], length[2], length[3], 1, kind, origin[0], origin[1], dest[0],
        dest[1], 0, 0, call[0], call[1], call[2], call[3],
    ]
}

/// Appends the one spelling of a valid record.
pub fn encode(rec: &Record, out: &mut Vec<u8>) -> Result<(), AllocError>
    requires { IsTrue (is_valid rec.now) }
    ensures ok { OnOk result (out.new.items ≡ out.old.items ++ spelling_of rec.now) }
    ensures err { OnErr result (out.new.items ≡ out.old.items) }
{
    let before = out.len();
    let kind = kind_number(&rec.body);
    let fields = fields_of_kind(kind);
    out.extend_from_slice(&header(rec, length_of_kind(kind)))?;
    match append_fields(fields, &numbers_of(&rec.body)[..fields.len()], out) {
        Ok(()) => Ok(()),
        Err(AllocError) => {
            out.truncate(before);
            Err(AllocError)
        }
    }
}
