// The lines of records that go over a channel: the name of the kind, the header, and the fields that the kind has.
ghost use Rattle.std.specs.Prelude.{◌≡◌, ◌++◌, OnOk, OnErr};
ghost use Rattle.xemem_language.specs.declared.line.Line.TheVariants as lines;
ghost use Rattle.xemem_language.specs.Spelling.{line_text, name_word, body_words, spaced};
ghost use Rattle.line_printer.specs.Items.{IsBegunBy};

use crate::item::Item;
use crate::row::{Behind, print_row, row};
use std::alloc::AllocError;
use xemem_language::{Body, Record};
use xm_num::Enclave;

// The name of a record.
fn name(body: &Body) -> &'static str
    ensures { result.now ≡ name_word body.now }
{
    match body {
        Body::Query => "query",
        Body::Here => "here",
        Body::Register => "register",
        Body::Admit => "admit",
        Body::NameReq => "namereq",
        Body::Named { .. } => "named",
        Body::Unname { .. } => "unname",
        Body::Lookup { .. } => "lookup",
        Body::Found { .. } => "found",
        Body::Get { .. } => "get",
        Body::Granted { .. } => "granted",
        Body::GetRefused { .. } => "getrefused",
        Body::Release { .. } => "release",
        Body::Attach { .. } => "attach",
        Body::Attached { .. } => "attached",
        Body::AttachRefused { .. } => "attachrefused",
        Body::Detach => "detach",
        Body::Died { .. } => "died",
        Body::Dead { .. } => "dead",
        Body::Confirm { .. } => "confirm",
    }
}

// Appends the fields of a kind that has some, a space before each.
fn fields(body: &Body, out: &mut Vec<u8>) -> Result<(), AllocError>
    ensures ok { OnOk result (out.new.items ≡ out.old.items ++ spaced (body_words body.now)) }
    ensures err { OnErr result (IsBegunBy out.old.items out.new.items) }
{
    match body {
        Body::Query | Body::Here | Body::Register | Body::Admit | Body::NameReq | Body::Detach => {
            Ok(())
        }
        Body::Named { segid } | Body::Unname { segid } | Body::Lookup { segid } => {
            row!(@behind *segid).append(out)
        }
        Body::Found { segid, owner } => row!(@behind *segid, *owner).append(out),
        Body::Get {
            segid,
            flags,
            uid,
            gid,
        } => row!(@behind *segid, *flags, *uid, *gid).append(out),
        Body::Granted { pages } => row!(@behind *pages).append(out),
        Body::GetRefused { cause } | Body::AttachRefused { cause } => {
            row!(@behind *cause).append(out)
        }
        Body::Release { apid } => row!(@behind *apid).append(out),
        Body::Attach {
            apid,
            offset,
            pages,
        } => row!(@behind *apid, *offset, *pages).append(out),
        Body::Attached { frames } => {
            let (count, frames) = (frames.len() as u64, frames.as_slice());
            row!(@behind count, frames).append(out)
        }
        Body::Died { enclave } | Body::Dead { enclave } | Body::Confirm { enclave } => {
            row!(@behind *enclave).append(out)
        }
    }
}

impl Behind for &Body {
    ghost words = { λ body. body_words body.now };

    #[inline(always)]
    fn append(&self, out: &mut Vec<u8>) -> Result<(), AllocError> {
        fields(self, out)
    }
}

/// Appends the line of a record that goes over the channel between two neighbours. For want of memory the buffer
/// stays as it was.
pub fn sent(from: Enclave, to: Enclave, rec: &Record, out: &mut Vec<u8>) -> Result<(), AllocError>
    ensures ok { OnOk result (out.new.items ≡ out.old.items ++ line_text (lines.Sent from to rec.now)) }
    ensures err { OnErr result (out.new.items ≡ out.old.items) }
{
    let header = (Item::from(rec.dest), (Item::from(rec.call), &rec.body));
    let row = (
        Item::from(from),
        (
            Item::from(to),
            (
                Item::from(name(&rec.body)),
                (Item::from(rec.origin), header),
            ),
        ),
    );
    print_row(out, "sent", &row)
}
