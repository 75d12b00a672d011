// What goes over a channel: records are sent, bytes are taken and shown.
ghost use Rattle.std.specs.Prelude.{◌≡◌, ◌≤◌, ◌++◌, length, take, drop, false, IsTrue, OnOk, OnErr, IfOk};
ghost use Rattle.byte_link.specs.Channel.{waiting_bytes, sent, taken};
ghost use Rattle.xemem_wire.specs.Spelling.{is_valid, spelling_of};
ghost use Rattle.enclave_rules.specs.Steps.{refusal, bytes_lines};

use crate::laws::laws;
use byte_link::Link;
use std::alloc::{AllocError, Global};
use xemem_language::{ByteList, Line, Lines, Record};
use xemem_wire::encode;
use xm_num::{Cause, Enclave};

/// Writes a refusal.
pub fn refuse(cause: Cause, out: &mut Lines) -> Result<(), AllocError>
    ensures { OnOk result (out.new ≡ out.old ++ refusal cause) }
{
    out.push(Line::Refused { cause })
}

/// Sends a record over a link. It is spelled in `room` first, whose bytes are lost. More bytes than a u32 counts find no room.
pub fn send_over(link: &mut Link, rec: &Record, room: &mut Vec<u8>) -> Result<(), AllocError>
    requires valid { IsTrue (is_valid rec.now) }
    requires open_end { link.old.ended ≡ false }
    ensures sent { OnOk result (link.new ≡ sent link.old (spelling_of rec.now)) }
    ensures err { OnErr result (link.new ≡ link.old) }
{
    laws();
    room.clear();
    encode(rec, room)?;
    if room.len() >= (u32::MAX - link.waiting()) as usize {
        return Err(AllocError);
    }
    link.send(room)
}

/// Takes the first `count` bytes out of a link, in which they wait. `into` has these alone then.
pub fn take_bytes(link: &mut Link, count: u32, into: &mut Vec<u8>) -> Result<(), AllocError>
    requires { count ≤ length (waiting_bytes link.old) }
    ensures bytes { OnOk result (into.new.items ≡ take count (waiting_bytes link.old)) }
    ensures rest { OnOk result (link.new ≡ taken link.old count) }
    ensures err { OnErr result (link.new ≡ link.old) }
{
    into.resize(count as usize, 0)?;
    link.take(into);
    Ok(())
}

// At most 32 waiting bytes of a link from byte `at` on.
fn bytes_at(alloc: Global, link: &Link, at: u32) -> Result<ByteList, AllocError>
    ensures { IfOk result (λ bytes. bytes ≡ take 32 (drop at (waiting_bytes link.now))) }
{
    let end = link.waiting().min(at.saturating_add(32));
    let mut bytes = ByteList::new(alloc);
    for i in at..end {
        bytes.push(link.byte(i).unwrap())?;
    }
    Ok(bytes)
}

/// Tells the waiting bytes of a channel, 32 a line.
pub fn show(
    alloc: Global,
    link: &Link,
    from: Enclave,
    to: Enclave,
    out: &mut Lines,
) -> Result<(), AllocError>
    ensures { OnOk result (out.new ≡ out.old ++ bytes_lines from to (length (waiting_bytes link.now)) 0 (waiting_bytes link.now)) }
{
    let mut at = 0;
    while at < link.waiting() {
        let bytes = bytes_at(alloc, link, at)?;
        out.push(Line::Bytes {
            from,
            to,
            at,
            bytes,
        })?;
        at = at.saturating_add(32);
    }
    Ok(())
}
