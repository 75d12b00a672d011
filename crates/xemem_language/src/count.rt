ghost use Rattle.std.specs.Prelude.{◌≡◌, ◌<◌, ◌≤◌, ◌^◌, length};
ghost use Rattle.xemem_language.specs.Spelling.{body_words, command_words, line_words};

use crate::{Body, Command, Line};

// How many words spell the command.
fn count_of_command(command: &Command) -> u32
    ensures { result ≡ length (command_words command.now) }
{
    match command {
        Command::Pool { .. } | Command::Settle { .. } | Command::Stop { .. } => 2,
        Command::ShowPool | Command::ShowNames => 2,
        Command::Host { ns, .. } => if *ns { 3 } else { 2 },
        Command::Boot { ns, .. } => if *ns { 7 } else { 6 },
        Command::Exit { .. } | Command::ShowRoutes { .. } | Command::ShowPins { .. } => 3,
        Command::Proc { .. } | Command::Deliver { .. } | Command::Remove { .. } => 4,
        Command::Release { .. } | Command::Detach { .. } | Command::Kill { .. } => 4,
        Command::ShowMaps { .. } | Command::ShowLink { .. } => 4,
        Command::Alloc { .. } | Command::Free { .. } | Command::Touch { .. } => 5,
        Command::Get { .. } => 5,
        Command::Make { .. } => 6,
        Command::Attach { .. } => 7,
    }
}

// How many words tell what a record says, behind its name and its header.
fn count_of_body(body: &Body) -> u64
    ensures count { result ≡ length (body_words body.now) }
    ensures small { result ≤ 2 ^ 63 }
{
    match body {
        Body::Query | Body::Here | Body::Register | Body::Admit | Body::NameReq | Body::Detach => 0,
        Body::Named { .. } | Body::Unname { .. } | Body::Lookup { .. } | Body::Granted { .. } => 1,
        Body::GetRefused { .. } | Body::Release { .. } | Body::AttachRefused { .. } => 1,
        Body::Died { .. } | Body::Dead { .. } | Body::Confirm { .. } => 1,
        Body::Found { .. } => 2,
        Body::Attach { .. } => 3,
        Body::Get { .. } => 4,
        Body::Attached { frames } => 1 + frames.len() as u64,
    }
}

/// How many words a line's spelling has, also where a list in it is longer than a journal ever has one.
pub fn word_count(line: &Line) -> u64
    ensures { result ≡ length (line_words line.now) }
{
    match line {
        Line::Do { command } => 1 + u64::from(count_of_command(command)),
        Line::Born { blocks, .. } => 5 + blocks.len() as u64,
        Line::Alloc { frames, .. } => 4 + frames.len() as u64,
        Line::Sent { rec, .. } => 7 + count_of_body(&rec.body),
        Line::Bytes { bytes, .. } => if bytes.len() == 0 { 4 } else { 5 },
        Line::Refused { .. } | Line::Admitted { .. } | Line::Dropped { .. } => 2,
        Line::Unnamed { .. } | Line::Stopped { .. } | Line::Held { .. } => 2,
        Line::Unheld { .. } | Line::Settled { .. } | Line::Waiting { .. } => 2,
        Line::Told { .. } | Line::Idle { .. } | Line::Got { .. } | Line::Way { .. } => 3,
        Line::Asked { .. } | Line::Unmap { .. } | Line::Release { .. } | Line::Remove { .. } => 3,
        Line::Undo { .. } | Line::Closed { .. } | Line::Exit { .. } | Line::Killed { .. } => 3,
        Line::Heard { .. } | Line::Confirmed { .. } | Line::Name { .. } => 3,
        Line::BlockFree { .. } => 3,
        Line::Issue { .. } | Line::Drew { .. } | Line::Named { .. } | Line::Pin { .. } => 4,
        Line::Map { .. } | Line::Unpin { .. } | Line::Ungrant { .. } | Line::Gdrop { .. } => 4,
        Line::Took { .. } | Line::End { .. } | Line::Back { .. } | Line::Route { .. } => 4,
        Line::AtWay { .. } | Line::AtWayOwn { .. } | Line::AtWayNone { .. } => 4,
        Line::BlockLent { .. } | Line::BlockHeld { .. } => 4,
        Line::Proc { .. } | Line::Free { .. } | Line::Touched { .. } | Line::Deny { .. } => 5,
        Line::AtRoute { .. } => 5,
        Line::Grant { .. } | Line::Gmap { .. } | Line::Page { .. } => 6,
        Line::AnswerSegid { .. } | Line::AnswerAddr { .. } | Line::AnswerRefused { .. } => 6,
        Line::AnswerApid { .. } | Line::AtPin { .. } => 8,
    }
}

/// How many words a line's spelling has.
pub fn words(line: &Line) -> u32
    requires { length (line_words line.now) < 2 ^ 32 }
    ensures { result ≡ length (line_words line.now) }
{
    word_count(line) as u32
}
