// Reading to the end, and writing a whole piece.
ghost use Rattle.std.specs.Prelude.{◌≡◌, ◌≤◌, is_some, IfOk, OnErr, OnOk, IfErr};
ghost use Rattle.std.specs.Io.KnownBytes.{Appends};
ghost use Rattle.xm_edge.specs.Faults.{Rose, HasCause};
ghost use Rattle.xm_edge.specs.Whole.{GivesAll, GivesSome, AppendsFront};

use crate::{Sink, Source, WriteFailed};
use std::alloc::Global;
use thiserror::Error;

// How many bytes a turn asks the source for.
const PIECE: usize = 65536;

/// Why a source wasn't read to its end.
#[derive(Clone, Copy, Debug, PartialEq, Eq, Error)]
pub enum ReadAllFault {
    /// The source failed.
    #[error("a read failed")]
    Read,
    /// More bytes came than were allowed.
    #[error("the input is too long")]
    TooLong,
    /// Memory was wanting.
    #[error("out of memory")]
    Memory,
}

/// Reads the source to its end, `most` bytes at most. It asks for 64 KiB at a turn, and each turn takes a byte or
/// ends. After a fault the bytes that came are gone from the source.
pub fn read_all<S: Source>(
    alloc: Global,
    source: &mut S,
    most: u32,
) -> Result<Vec<u8>, ReadAllFault>
    ensures ok { IfOk result (λ v. GivesAll (S.left source.old) (S.left source.new) v.items most) }
    ensures err { IfErr result (λ fault. GivesSome (S.left source.old) (S.left source.new) fault most) }
    ensures later { S.faults source.old ≤ S.faults source.new }
    ensures read { result ≡ Err ReadAllFault.Read → Rose (S.faults source.old) (S.faults source.new) }
    ensures kept { OnOk result (S.faults source.new ≡ S.faults source.old) }
    ensures tells { is_some (S.left source.new) ≡ is_some (S.left source.old) }
{
    let most = most as usize;
    let mut bytes = Vec::new(alloc);
    let mut piece = [0u8; PIECE];
    loop {
        let Ok(count) = source.take(&mut piece) else {
            return Err(ReadAllFault::Read);
        };
        if count == 0 {
            return Ok(bytes);
        }
        if count > most - bytes.len() {
            return Err(ReadAllFault::TooLong);
        }
        if bytes.extend_from_slice(&piece[..count]).is_err() {
            return Err(ReadAllFault::Memory);
        }
    }
}

/// Puts the whole piece, which may be empty. After a fault a front of it was appended.
pub fn write_all<K: Sink>(sink: &mut K, piece: &[u8]) -> Result<(), WriteFailed>
    ensures ok { OnOk result (Appends (K.contents sink.old) (K.contents sink.new) piece.now) }
    ensures err { OnErr result (AppendsFront (K.contents sink.old) (K.contents sink.new) piece.now) }
    ensures cause { HasCause (K.faults sink.old) (K.faults sink.new) result }
    ensures tells { is_some (K.contents sink.new) ≡ is_some (K.contents sink.old) }
{
    let mut at = 0;
    while at < piece.len() {
        at += sink.put(&piece[at..])?;
    }
    Ok(())
}
