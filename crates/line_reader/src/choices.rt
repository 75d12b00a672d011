// The lines in which a word behind the first chooses what follows.
ghost use Rattle.std.specs.Prelude.{◌≡◌, option_map};
ghost use Rattle.line_reader.specs.Lines as spec;
ghost use Rattle.line_reader.specs.Slots as slot;

use crate::cursor::Words;
use text_words::number_of;
use xemem_language::Line;
use xm_num::{CallNo, Enclave, Pid};

// What a call is answered, by the word that says so.
fn answer_of(
    what: &[u8],
    enclave: Enclave,
    pid: Pid,
    call: CallNo,
    words: &mut Words,
) -> Option<Line>
    ensures { option_map (λ line. (line, words.new)) result ≡ slot.row_read (spec.answer_rows enclave pid call) what.now words.old }
{
    if what == b"segid".as_slice() {
        let segid = words.segid()?;
        Some(Line::AnswerSegid {
            enclave,
            pid,
            call,
            segid,
        })
    } else if what == b"apid".as_slice() {
        let apid = words.apid()?;
        words.keyword(b"pages")?;
        let pages = words.word32()?;
        Some(Line::AnswerApid {
            enclave,
            pid,
            call,
            apid,
            pages,
        })
    } else if what == b"addr".as_slice() {
        let addr = words.word64()?;
        Some(Line::AnswerAddr {
            enclave,
            pid,
            call,
            addr,
        })
    } else if what == b"refused".as_slice() {
        let cause = words.cause()?;
        Some(Line::AnswerRefused {
            enclave,
            pid,
            call,
            cause,
        })
    } else {
        None
    }
}

/// The answer to a call: a segid, a permit, an address or a refusal.
#[tactic(auto, unfolding(crate::specs::Lines::answer_form))]
pub fn answer(words: &mut Words) -> Option<Line>
    ensures { option_map (λ line. (line, words.new)) result ≡ spec.answer_form words.old }
{
    let enclave = words.enclave()?;
    let pid = words.pid()?;
    let call = words.call()?;
    let what = words.next()?;
    answer_of(what, enclave, pid, call, words)
}

// The way of an enclave: its own, none, or over a neighbour.
fn way(enclave: Enclave, word: &[u8]) -> Option<Line>
    ensures { result ≡ spec.shown_way enclave word.now }
{
    if word == b"own".as_slice() {
        Some(Line::AtWayOwn { enclave })
    } else if word == b"none".as_slice() {
        Some(Line::AtWayNone { enclave })
    } else {
        let number = number_of(word, 0, 65_535)?;
        Some(Line::AtWay {
            enclave,
            over: Enclave(number as u16),
        })
    }
}

/// What is known at an enclave: its way, a route or a pin.
#[tactic(auto, unfolding(crate::specs::Lines::at_form))]
pub fn known(words: &mut Words) -> Option<Line>
    ensures { option_map (λ line. (line, words.new)) result ≡ spec.at_form words.old }
{
    let enclave = words.enclave()?;
    let what = words.next()?;
    if what == b"way".as_slice() {
        let over = words.next()?;
        way(enclave, over)
    } else if what == b"route".as_slice() {
        let of = words.enclave()?;
        let over = words.enclave()?;
        Some(Line::AtRoute { enclave, of, over })
    } else if what == b"pin".as_slice() {
        Some(Line::AtPin {
            owner: enclave,
            enclave: words.enclave()?,
            call: words.call()?,
            segid: words.segid()?,
            offset: words.word32()?,
            pages: words.word32()?,
        })
    } else {
        None
    }
}

/// The state of a block.
#[tactic(auto, unfolding(crate::specs::Lines::block_form))]
pub fn block(words: &mut Words) -> Option<Line>
    ensures { option_map (λ line. (line, words.new)) result ≡ spec.block_form words.old }
{
    let block = words.block()?;
    let what = words.next()?;
    if what == b"free".as_slice() {
        Some(Line::BlockFree { block })
    } else if what == b"lent".as_slice() {
        let enclave = words.enclave()?;
        Some(Line::BlockLent { block, enclave })
    } else if what == b"held".as_slice() {
        let enclave = words.enclave()?;
        Some(Line::BlockHeld { block, enclave })
    } else {
        None
    }
}
