// The lines of a fixed number of words, a row for each. The first word is taken already.
ghost use Rattle.std.specs.Prelude.{◌≡◌, option_map};
ghost use Rattle.line_reader.specs.Lines as spec;
ghost use Rattle.line_reader.specs.Slots as slot;

use crate::choices::{answer, block, known};
use crate::commanded::commanded;
use crate::cursor::Words;
use xemem_language::Line;

/// The lines that begin a command, and those of births, and those behind them in the table.
#[tactic(auto, unfolding(crate::specs::Lines::fixed_rows))]
pub fn fixed_line(first: &[u8], words: &mut Words) -> Option<Line>
    ensures { option_map (λ line. (line, words.new)) result ≡ slot.row_read spec.fixed_rows first.now words.old }
{
    if first == b"do".as_slice() {
        commanded(words)
    } else if first == b"refused".as_slice() {
        Some(Line::Refused {
            cause: words.cause()?,
        })
    } else if first == b"told".as_slice() {
        Some(Line::Told {
            enclave: words.enclave()?,
            of: words.enclave()?,
        })
    } else if first == b"admitted".as_slice() {
        Some(Line::Admitted {
            enclave: words.enclave()?,
        })
    } else if first == b"proc".as_slice() {
        Some(Line::Proc {
            enclave: words.enclave()?,
            pid: words.pid()?,
            uid: words.word32()?,
            gid: words.word32()?,
        })
    } else {
        call_line(first, words)
    }
}

// The lines of pages and of calls, and those behind them in the table.
#[tactic(auto, unfolding(crate::specs::Lines::call_rows))]
fn call_line(first: &[u8], words: &mut Words) -> Option<Line>
    ensures { option_map (λ line. (line, words.new)) result ≡ slot.row_read spec.call_rows first.now words.old }
{
    if first == b"free".as_slice() {
        Some(Line::Free {
            enclave: words.enclave()?,
            pid: words.pid()?,
            at: words.page()?,
            pages: words.word32()?,
        })
    } else if first == b"touched".as_slice() {
        Some(Line::Touched {
            enclave: words.enclave()?,
            pid: words.pid()?,
            page: words.page()?,
            frame: words.frame()?,
        })
    } else if first == b"issue".as_slice() {
        Some(Line::Issue {
            enclave: words.enclave()?,
            pid: words.pid()?,
            call: words.call()?,
        })
    } else if first == b"drew".as_slice() {
        Some(Line::Drew {
            enclave: words.enclave()?,
            call: words.call()?,
            segid: words.segid()?,
        })
    } else if first == b"named".as_slice() {
        Some(Line::Named {
            enclave: words.enclave()?,
            call: words.call()?,
            segid: words.segid()?,
        })
    } else {
        grant_line(first, words)
    }
}

// The lines of grants and pins, and those behind them in the table.
#[tactic(auto, unfolding(crate::specs::Lines::grant_rows))]
fn grant_line(first: &[u8], words: &mut Words) -> Option<Line>
    ensures { option_map (λ line. (line, words.new)) result ≡ slot.row_read spec.grant_rows first.now words.old }
{
    if first == b"unnamed".as_slice() {
        Some(Line::Unnamed {
            segid: words.segid()?,
        })
    } else if first == b"grant".as_slice() {
        Some(Line::Grant {
            owner: words.enclave()?,
            enclave: words.enclave()?,
            call: words.call()?,
            segid: words.segid()?,
            access: words.access()?,
        })
    } else if first == b"deny".as_slice() {
        Some(Line::Deny {
            at: words.enclave()?,
            enclave: words.enclave()?,
            call: words.call()?,
            cause: words.cause()?,
        })
    } else if first == b"pin".as_slice() {
        Some(Line::Pin {
            owner: words.enclave()?,
            enclave: words.enclave()?,
            call: words.call()?,
        })
    } else if first == b"map".as_slice() {
        Some(Line::Map {
            enclave: words.enclave()?,
            call: words.call()?,
            page: words.page()?,
        })
    } else {
        end_line(first, words)
    }
}

// The lines of what ends, and those behind them in the table.
#[tactic(auto, unfolding(crate::specs::Lines::end_rows))]
fn end_line(first: &[u8], words: &mut Words) -> Option<Line>
    ensures { option_map (λ line. (line, words.new)) result ≡ slot.row_read spec.end_rows first.now words.old }
{
    if first == b"unmap".as_slice() {
        Some(Line::Unmap {
            enclave: words.enclave()?,
            call: words.call()?,
        })
    } else if first == b"unpin".as_slice() {
        Some(Line::Unpin {
            owner: words.enclave()?,
            enclave: words.enclave()?,
            call: words.call()?,
        })
    } else if first == b"release".as_slice() {
        Some(Line::Release {
            enclave: words.enclave()?,
            call: words.call()?,
        })
    } else if first == b"ungrant".as_slice() {
        Some(Line::Ungrant {
            owner: words.enclave()?,
            enclave: words.enclave()?,
            call: words.call()?,
        })
    } else if first == b"remove".as_slice() {
        Some(Line::Remove {
            enclave: words.enclave()?,
            segid: words.segid()?,
        })
    } else if first == b"undo".as_slice() {
        Some(Line::Undo {
            enclave: words.enclave()?,
            call: words.call()?,
        })
    } else {
        exit_line(first, words)
    }
}

// The lines of exited processes, and of answers, and those behind them in the table.
#[tactic(auto, unfolding(crate::specs::Lines::exit_rows))]
fn exit_line(first: &[u8], words: &mut Words) -> Option<Line>
    ensures { option_map (λ line. (line, words.new)) result ≡ slot.row_read spec.exit_rows first.now words.old }
{
    if first == b"closed".as_slice() {
        Some(Line::Closed {
            enclave: words.enclave()?,
            call: words.call()?,
        })
    } else if first == b"exit".as_slice() {
        Some(Line::Exit {
            enclave: words.enclave()?,
            pid: words.pid()?,
        })
    } else if first == b"answer".as_slice() {
        answer(words)
    } else {
        channel_line(first, words)
    }
}

// The lines of channels, and those behind them in the table.
#[tactic(auto, unfolding(crate::specs::Lines::channel_rows))]
fn channel_line(first: &[u8], words: &mut Words) -> Option<Line>
    ensures { option_map (λ line. (line, words.new)) result ≡ slot.row_read spec.channel_rows first.now words.old }
{
    if first == b"took".as_slice() {
        Some(Line::Took {
            from: words.enclave()?,
            to: words.enclave()?,
            count: words.word32()?,
        })
    } else if first == b"idle".as_slice() {
        Some(Line::Idle {
            from: words.enclave()?,
            to: words.enclave()?,
        })
    } else if first == b"got".as_slice() {
        Some(Line::Got {
            from: words.enclave()?,
            to: words.enclave()?,
        })
    } else if first == b"end".as_slice() {
        Some(Line::End {
            from: words.enclave()?,
            to: words.enclave()?,
            torn: words.word32()?,
        })
    } else if first == b"drop".as_slice() {
        Some(Line::Dropped {
            enclave: words.enclave()?,
        })
    } else {
        way_line(first, words)
    }
}

// The lines of ways, and those behind them in the table.
#[tactic(auto, unfolding(crate::specs::Lines::way_rows))]
fn way_line(first: &[u8], words: &mut Words) -> Option<Line>
    ensures { option_map (λ line. (line, words.new)) result ≡ slot.row_read spec.way_rows first.now words.old }
{
    if first == b"asked".as_slice() {
        Some(Line::Asked {
            enclave: words.enclave()?,
            by: words.enclave()?,
        })
    } else if first == b"way".as_slice() {
        Some(Line::Way {
            enclave: words.enclave()?,
            over: words.enclave()?,
        })
    } else if first == b"back".as_slice() {
        Some(Line::Back {
            enclave: words.enclave()?,
            of: words.enclave()?,
            over: words.enclave()?,
        })
    } else if first == b"route".as_slice() {
        Some(Line::Route {
            enclave: words.enclave()?,
            of: words.enclave()?,
            over: words.enclave()?,
        })
    } else {
        kill_line(first, words)
    }
}

// The lines of frames that a monitor gives, and of enclaves that end, and those behind them in the table.
#[tactic(auto, unfolding(crate::specs::Lines::kill_rows))]
fn kill_line(first: &[u8], words: &mut Words) -> Option<Line>
    ensures { option_map (λ line. (line, words.new)) result ≡ slot.row_read spec.kill_rows first.now words.old }
{
    if first == b"gmap".as_slice() {
        Some(Line::Gmap {
            monitor: words.enclave()?,
            guest: words.enclave()?,
            owner: words.enclave()?,
            call: words.call()?,
            first: words.frame()?,
        })
    } else if first == b"gdrop".as_slice() {
        Some(Line::Gdrop {
            monitor: words.enclave()?,
            guest: words.enclave()?,
            call: words.call()?,
        })
    } else if first == b"killed".as_slice() {
        Some(Line::Killed {
            enclave: words.enclave()?,
            cut: words.word32()?,
        })
    } else if first == b"stopped".as_slice() {
        Some(Line::Stopped {
            enclave: words.enclave()?,
        })
    } else if first == b"held".as_slice() {
        Some(Line::Held {
            enclave: words.enclave()?,
        })
    } else {
        death_line(first, words)
    }
}

// The lines of deaths, and of the ends of settles, and those behind them in the table.
#[tactic(auto, unfolding(crate::specs::Lines::death_rows))]
fn death_line(first: &[u8], words: &mut Words) -> Option<Line>
    ensures { option_map (λ line. (line, words.new)) result ≡ slot.row_read spec.death_rows first.now words.old }
{
    if first == b"heard".as_slice() {
        Some(Line::Heard {
            enclave: words.enclave()?,
            of: words.enclave()?,
        })
    } else if first == b"confirmed".as_slice() {
        Some(Line::Confirmed {
            of: words.enclave()?,
            by: words.enclave()?,
        })
    } else if first == b"unheld".as_slice() {
        Some(Line::Unheld {
            enclave: words.enclave()?,
        })
    } else if first == b"settled".as_slice() {
        Some(Line::Settled {
            made: words.word32()?,
        })
    } else if first == b"waiting".as_slice() {
        Some(Line::Waiting {
            made: words.word32()?,
        })
    } else {
        shown_line(first, words)
    }
}

// The lines of what is shown.
#[tactic(auto, unfolding(crate::specs::Lines::shown_rows))]
fn shown_line(first: &[u8], words: &mut Words) -> Option<Line>
    ensures { option_map (λ line. (line, words.new)) result ≡ slot.row_read spec.shown_rows first.now words.old }
{
    if first == b"page".as_slice() {
        Some(Line::Page {
            enclave: words.enclave()?,
            pid: words.pid()?,
            page: words.page()?,
            frame: words.frame()?,
            access: words.access()?,
        })
    } else if first == b"at".as_slice() {
        known(words)
    } else if first == b"block".as_slice() {
        block(words)
    } else if first == b"name".as_slice() {
        Some(Line::Name {
            segid: words.segid()?,
            owner: words.enclave()?,
        })
    } else {
        None
    }
}
