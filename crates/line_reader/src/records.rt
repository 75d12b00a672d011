// The lines of sent records: their ends, their name, their header, and a row of fields for each kind.
ghost use Rattle.std.specs.Prelude.{◌≡◌, option_map, IfOk};
ghost use Rattle.line_reader.specs.Lines as spec;
ghost use Rattle.line_reader.specs.Slots as slot;

use crate::cursor::Words;
use std::alloc::{AllocError, Global};
use xemem_language::{Body, Line, Record};

// The kinds that end something.
#[tactic(auto, unfolding(crate::specs::Lines::ended_body_rows))]
fn ended_body(name: &[u8], words: &mut Words) -> Option<Body>
    ensures { option_map (λ body. (body, words.new)) result ≡ slot.row_read spec.ended_body_rows name.now words.old }
{
    if name == b"attachrefused".as_slice() {
        Some(Body::AttachRefused {
            cause: words.word32()?,
        })
    } else if name == b"detach".as_slice() {
        Some(Body::Detach)
    } else if name == b"died".as_slice() {
        Some(Body::Died {
            enclave: words.enclave()?,
        })
    } else if name == b"dead".as_slice() {
        Some(Body::Dead {
            enclave: words.enclave()?,
        })
    } else if name == b"confirm".as_slice() {
        Some(Body::Confirm {
            enclave: words.enclave()?,
        })
    } else {
        None
    }
}

// The kinds of gets and attaches, and those behind them in the table.
#[tactic(auto, unfolding(crate::specs::Lines::call_body_rows))]
fn call_body(name: &[u8], words: &mut Words) -> Option<Body>
    ensures { option_map (λ body. (body, words.new)) result ≡ slot.row_read spec.call_body_rows name.now words.old }
{
    if name == b"found".as_slice() {
        Some(Body::Found {
            segid: words.segid()?,
            owner: words.destination()?,
        })
    } else if name == b"get".as_slice() {
        Some(Body::Get {
            segid: words.segid()?,
            flags: words.word32()?,
            uid: words.word32()?,
            gid: words.word32()?,
        })
    } else if name == b"granted".as_slice() {
        Some(Body::Granted {
            pages: words.word32()?,
        })
    } else if name == b"getrefused".as_slice() {
        Some(Body::GetRefused {
            cause: words.word32()?,
        })
    } else if name == b"release".as_slice() {
        Some(Body::Release {
            apid: words.apid()?,
        })
    } else if name == b"attach".as_slice() {
        Some(Body::Attach {
            apid: words.apid()?,
            offset: words.word32()?,
            pages: words.word32()?,
        })
    } else {
        ended_body(name, words)
    }
}

// The kinds of ways and names, and those behind them in the table.
#[tactic(auto, unfolding(crate::specs::Lines::fixed_body_rows))]
fn fixed_body(name: &[u8], words: &mut Words) -> Option<Body>
    ensures { option_map (λ body. (body, words.new)) result ≡ slot.row_read spec.fixed_body_rows name.now words.old }
{
    if name == b"query".as_slice() {
        Some(Body::Query)
    } else if name == b"here".as_slice() {
        Some(Body::Here)
    } else if name == b"register".as_slice() {
        Some(Body::Register)
    } else if name == b"admit".as_slice() {
        Some(Body::Admit)
    } else if name == b"namereq".as_slice() {
        Some(Body::NameReq)
    } else if name == b"named".as_slice() {
        Some(Body::Named {
            segid: words.segid()?,
        })
    } else if name == b"unname".as_slice() {
        Some(Body::Unname {
            segid: words.segid()?,
        })
    } else if name == b"lookup".as_slice() {
        Some(Body::Lookup {
            segid: words.segid()?,
        })
    } else {
        call_body(name, words)
    }
}

// As many frames as the count before them says.
#[tactic(auto, unfolding(crate::specs::Lines::attached_form))]
fn attached(alloc: Global, words: &mut Words) -> Result<Option<Body>, AllocError>
    ensures { IfOk result (λ found. option_map (λ body. (body, words.new)) found ≡ spec.attached_form words.old) }
{
    let Some(count) = words.word32() else {
        return Ok(None);
    };
    let Some(frames) = words.frames(alloc)? else {
        return Ok(None);
    };
    if frames.len() as u64 != u64::from(count) {
        return Ok(None);
    }
    Ok(Some(Body::Attached { frames }))
}

// What a record of that name says.
#[tactic(auto, unfolding(crate::specs::Lines::body_rows))]
fn body(alloc: Global, name: &[u8], words: &mut Words) -> Result<Option<Body>, AllocError>
    ensures { IfOk result (λ found. option_map (λ body. (body, words.new)) found ≡ slot.row_read spec.body_rows name.now words.old) }
{
    if name == b"attached".as_slice() {
        attached(alloc, words)
    } else {
        Ok(fixed_body(name, words))
    }
}

/// A record that goes from an enclave to its neighbour.
#[tactic(auto, unfolding(crate::specs::Lines::sent_form))]
pub fn sent(alloc: Global, words: &mut Words) -> Result<Option<Line>, AllocError>
    ensures { IfOk result (λ found. option_map (λ line. (line, words.new)) found ≡ spec.sent_form words.old) }
{
    let Some(from) = words.enclave() else {
        return Ok(None);
    };
    let Some(to) = words.enclave() else {
        return Ok(None);
    };
    let Some(name) = words.text() else {
        return Ok(None);
    };
    let Some(origin) = words.enclave() else {
        return Ok(None);
    };
    let Some(dest) = words.destination() else {
        return Ok(None);
    };
    let Some(call) = words.word32() else {
        return Ok(None);
    };
    let Some(body) = body(alloc, name, words)? else {
        return Ok(None);
    };
    Ok(Some(Line::Sent {
        from,
        to,
        rec: Record {
            origin,
            dest,
            call,
            body,
        },
    }))
}
