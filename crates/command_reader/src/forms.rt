// How the words of each form are read. The first word is the form's, and stands there already.
ghost use Rattle.std.specs.Prelude.{◌≡◌, length};
ghost use Rattle.command_reader.specs.Forms as form;
ghost use Rattle.command_reader.specs.Rows.{texts};

use crate::SyntaxFault;
use crate::slots::{
    access, blocks, count, either, enclave, id, is_word, keyword, kind, mode, name, own_page,
    pages, want, wide,
};
use xemem_language::Command;
use xm_num::{Apid, Enclave, Pid, Segid, Vpn};

/// `pool BLOCKS`.
#[tactic(auto, unfolding(crate::specs::Forms::pool_form))]
pub fn pool(words: &[&[u8]]) -> Result<Command, SyntaxFault>
    requires { length words.now ≡ 2 }
    ensures { result ≡ form.pool_form (texts words.now) }
{
    let blocks = blocks(words, 1)?;
    Ok(Command::Pool { blocks })
}

/// `host BLOCKS`.
#[tactic(auto, unfolding(crate::specs::Forms::host_form))]
pub fn host(words: &[&[u8]]) -> Result<Command, SyntaxFault>
    requires { length words.now ≡ 2 }
    ensures { result ≡ form.host_form (texts words.now) }
{
    let blocks = blocks(words, 1)?;
    Ok(Command::Host { blocks, ns: false })
}

/// `host BLOCKS ns`.
#[tactic(auto, unfolding(crate::specs::Forms::host_ns_form))]
pub fn host_ns(words: &[&[u8]]) -> Result<Command, SyntaxFault>
    requires { length words.now ≡ 3 }
    ensures { result ≡ form.host_ns_form (texts words.now) }
{
    let blocks = blocks(words, 1)?;
    keyword(words, 2, b"ns")?;
    Ok(Command::Host { blocks, ns: true })
}

/// `boot KIND under PARENT blocks BLOCKS`.
#[tactic(auto, unfolding(crate::specs::Forms::boot_form))]
pub fn boot(words: &[&[u8]]) -> Result<Command, SyntaxFault>
    requires { length words.now ≡ 6 }
    ensures { result ≡ form.boot_form (texts words.now) }
{
    let kind = kind(words, 1)?;
    keyword(words, 2, b"under")?;
    let parent = Enclave(enclave(words, 3)?);
    keyword(words, 4, b"blocks")?;
    let blocks = blocks(words, 5)?;
    Ok(Command::Boot {
        kind,
        parent,
        blocks,
        ns: false,
    })
}

/// `boot KIND under PARENT blocks BLOCKS ns`.
#[tactic(auto, unfolding(crate::specs::Forms::boot_ns_form))]
pub fn boot_ns(words: &[&[u8]]) -> Result<Command, SyntaxFault>
    requires { length words.now ≡ 7 }
    ensures { result ≡ form.boot_ns_form (texts words.now) }
{
    let kind = kind(words, 1)?;
    keyword(words, 2, b"under")?;
    let parent = Enclave(enclave(words, 3)?);
    keyword(words, 4, b"blocks")?;
    let blocks = blocks(words, 5)?;
    keyword(words, 6, b"ns")?;
    Ok(Command::Boot {
        kind,
        parent,
        blocks,
        ns: true,
    })
}

/// `proc ENCLAVE USER GROUP`.
#[tactic(auto, unfolding(crate::specs::Forms::proc_form))]
pub fn proc(words: &[&[u8]]) -> Result<Command, SyntaxFault>
    requires { length words.now ≡ 4 }
    ensures { result ≡ form.proc_form (texts words.now) }
{
    let enclave = Enclave(enclave(words, 1)?);
    let uid = id(words, 2)?;
    let gid = id(words, 3)?;
    Ok(Command::Proc { enclave, uid, gid })
}

/// `alloc ENCLAVE PROCESS PAGE PAGES`.
#[tactic(auto, unfolding(crate::specs::Forms::alloc_form))]
pub fn alloc(words: &[&[u8]]) -> Result<Command, SyntaxFault>
    requires { length words.now ≡ 5 }
    ensures { result ≡ form.alloc_form (texts words.now) }
{
    let enclave = Enclave(enclave(words, 1)?);
    let pid = Pid(id(words, 2)?);
    let at = Vpn(own_page(words, 3)?);
    let pages = pages(words, 4)?;
    Ok(Command::Alloc {
        enclave,
        pid,
        at,
        pages,
    })
}

/// `free ENCLAVE PROCESS PAGE PAGES`.
#[tactic(auto, unfolding(crate::specs::Forms::free_form))]
pub fn free(words: &[&[u8]]) -> Result<Command, SyntaxFault>
    requires { length words.now ≡ 5 }
    ensures { result ≡ form.free_form (texts words.now) }
{
    let enclave = Enclave(enclave(words, 1)?);
    let pid = Pid(id(words, 2)?);
    let at = Vpn(own_page(words, 3)?);
    let pages = pages(words, 4)?;
    Ok(Command::Free {
        enclave,
        pid,
        at,
        pages,
    })
}

/// `make ENCLAVE PROCESS ADDRESS SIZE MODE`.
#[tactic(auto, unfolding(crate::specs::Forms::make_form))]
pub fn make(words: &[&[u8]]) -> Result<Command, SyntaxFault>
    requires { length words.now ≡ 6 }
    ensures { result ≡ form.make_form (texts words.now) }
{
    let enclave = Enclave(enclave(words, 1)?);
    let pid = Pid(id(words, 2)?);
    let addr = wide(words, 3)?;
    let size = wide(words, 4)?;
    let mode = mode(words, 5)?;
    Ok(Command::Make {
        enclave,
        pid,
        addr,
        size,
        mode,
    })
}

/// `remove ENCLAVE PROCESS SEGID`.
#[tactic(auto, unfolding(crate::specs::Forms::remove_form))]
pub fn remove(words: &[&[u8]]) -> Result<Command, SyntaxFault>
    requires { length words.now ≡ 4 }
    ensures { result ≡ form.remove_form (texts words.now) }
{
    let enclave = Enclave(enclave(words, 1)?);
    let pid = Pid(id(words, 2)?);
    let segid = Segid(name(words, 3)? as i64);
    Ok(Command::Remove {
        enclave,
        pid,
        segid,
    })
}

/// `get ENCLAVE PROCESS SEGID ACCESS`.
#[tactic(auto, unfolding(crate::specs::Forms::get_form))]
pub fn get(words: &[&[u8]]) -> Result<Command, SyntaxFault>
    requires { length words.now ≡ 5 }
    ensures { result ≡ form.get_form (texts words.now) }
{
    let enclave = Enclave(enclave(words, 1)?);
    let pid = Pid(id(words, 2)?);
    let segid = Segid(name(words, 3)? as i64);
    let access = access(words, 4)?;
    Ok(Command::Get {
        enclave,
        pid,
        segid,
        access,
    })
}

/// `release ENCLAVE PROCESS APID`.
#[tactic(auto, unfolding(crate::specs::Forms::release_form))]
pub fn release(words: &[&[u8]]) -> Result<Command, SyntaxFault>
    requires { length words.now ≡ 4 }
    ensures { result ≡ form.release_form (texts words.now) }
{
    let enclave = Enclave(enclave(words, 1)?);
    let pid = Pid(id(words, 2)?);
    let apid = Apid(name(words, 3)? as i64);
    Ok(Command::Release { enclave, pid, apid })
}

/// `attach ENCLAVE PROCESS APID OFFSET SIZE ADDRESS`.
#[tactic(auto, unfolding(crate::specs::Forms::attach_form))]
pub fn attach(words: &[&[u8]]) -> Result<Command, SyntaxFault>
    requires { length words.now ≡ 7 }
    ensures { result ≡ form.attach_form (texts words.now) }
{
    let enclave = Enclave(enclave(words, 1)?);
    let pid = Pid(id(words, 2)?);
    let apid = Apid(name(words, 3)? as i64);
    let offset = wide(words, 4)?;
    let size = wide(words, 5)?;
    let addr = wide(words, 6)?;
    Ok(Command::Attach {
        enclave,
        pid,
        apid,
        offset,
        size,
        addr,
    })
}

/// `detach ENCLAVE PROCESS ADDRESS`.
#[tactic(auto, unfolding(crate::specs::Forms::detach_form))]
pub fn detach(words: &[&[u8]]) -> Result<Command, SyntaxFault>
    requires { length words.now ≡ 4 }
    ensures { result ≡ form.detach_form (texts words.now) }
{
    let enclave = Enclave(enclave(words, 1)?);
    let pid = Pid(id(words, 2)?);
    let addr = wide(words, 3)?;
    Ok(Command::Detach { enclave, pid, addr })
}

/// `exit ENCLAVE PROCESS`.
#[tactic(auto, unfolding(crate::specs::Forms::exit_form))]
pub fn exit(words: &[&[u8]]) -> Result<Command, SyntaxFault>
    requires { length words.now ≡ 3 }
    ensures { result ≡ form.exit_form (texts words.now) }
{
    let enclave = Enclave(enclave(words, 1)?);
    let pid = Pid(id(words, 2)?);
    Ok(Command::Exit { enclave, pid })
}

/// `touch ENCLAVE PROCESS ADDRESS WANT`.
#[tactic(auto, unfolding(crate::specs::Forms::touch_form))]
pub fn touch(words: &[&[u8]]) -> Result<Command, SyntaxFault>
    requires { length words.now ≡ 5 }
    ensures { result ≡ form.touch_form (texts words.now) }
{
    let enclave = Enclave(enclave(words, 1)?);
    let pid = Pid(id(words, 2)?);
    let addr = wide(words, 3)?;
    let want = want(words, 4)?;
    Ok(Command::Touch {
        enclave,
        pid,
        addr,
        want,
    })
}

/// `deliver FROM TO COUNT`.
#[tactic(auto, unfolding(crate::specs::Forms::deliver_form))]
pub fn deliver(words: &[&[u8]]) -> Result<Command, SyntaxFault>
    requires { length words.now ≡ 4 }
    ensures { result ≡ form.deliver_form (texts words.now) }
{
    let from = Enclave(enclave(words, 1)?);
    let to = Enclave(enclave(words, 2)?);
    let count = count(words, 3)?;
    Ok(Command::Deliver { from, to, count })
}

/// `settle MOST`.
#[tactic(auto, unfolding(crate::specs::Forms::settle_form))]
pub fn settle(words: &[&[u8]]) -> Result<Command, SyntaxFault>
    requires { length words.now ≡ 2 }
    ensures { result ≡ form.settle_form (texts words.now) }
{
    let most = id(words, 1)?;
    Ok(Command::Settle { most })
}

/// `kill ENCLAVE cut BYTES`.
#[tactic(auto, unfolding(crate::specs::Forms::kill_form))]
pub fn kill(words: &[&[u8]]) -> Result<Command, SyntaxFault>
    requires { length words.now ≡ 4 }
    ensures { result ≡ form.kill_form (texts words.now) }
{
    let enclave = Enclave(enclave(words, 1)?);
    keyword(words, 2, b"cut")?;
    let cut = id(words, 3)?;
    Ok(Command::Kill { enclave, cut })
}

/// `stop ENCLAVE`.
#[tactic(auto, unfolding(crate::specs::Forms::stop_form))]
pub fn stop(words: &[&[u8]]) -> Result<Command, SyntaxFault>
    requires { length words.now ≡ 2 }
    ensures { result ≡ form.stop_form (texts words.now) }
{
    let enclave = Enclave(enclave(words, 1)?);
    Ok(Command::Stop { enclave })
}

// `show maps ENCLAVE PROCESS`.
#[tactic(auto, unfolding(crate::specs::Forms::maps_form))]
fn maps(words: &[&[u8]]) -> Result<Command, SyntaxFault>
    requires { length words.now ≡ 4 }
    ensures { result ≡ form.maps_form (texts words.now) }
{
    let enclave = Enclave(enclave(words, 2)?);
    let pid = Pid(id(words, 3)?);
    Ok(Command::ShowMaps { enclave, pid })
}

// `show link FROM TO`.
#[tactic(auto, unfolding(crate::specs::Forms::link_form))]
fn link(words: &[&[u8]]) -> Result<Command, SyntaxFault>
    requires { length words.now ≡ 4 }
    ensures { result ≡ form.link_form (texts words.now) }
{
    let from = Enclave(enclave(words, 2)?);
    let to = Enclave(enclave(words, 3)?);
    Ok(Command::ShowLink { from, to })
}

/// `show maps ..` or `show link ..`.
#[tactic(auto, unfolding(crate::specs::Forms::show_four, crate::specs::Forms::either))]
pub fn show_four(words: &[&[u8]]) -> Result<Command, SyntaxFault>
    requires { length words.now ≡ 4 }
    ensures { result ≡ form.show_four (texts words.now) }
{
    if is_word(words, 1, b"maps") {
        maps(words)
    } else if is_word(words, 1, b"link") {
        link(words)
    } else {
        Err(SyntaxFault::Keyword(1))
    }
}

// `show routes ENCLAVE`.
#[tactic(auto, unfolding(crate::specs::Forms::routes_form))]
fn routes(words: &[&[u8]]) -> Result<Command, SyntaxFault>
    requires { length words.now ≡ 3 }
    ensures { result ≡ form.routes_form (texts words.now) }
{
    let enclave = Enclave(enclave(words, 2)?);
    Ok(Command::ShowRoutes { enclave })
}

// `show pins ENCLAVE`.
#[tactic(auto, unfolding(crate::specs::Forms::pins_form))]
fn pins(words: &[&[u8]]) -> Result<Command, SyntaxFault>
    requires { length words.now ≡ 3 }
    ensures { result ≡ form.pins_form (texts words.now) }
{
    let enclave = Enclave(enclave(words, 2)?);
    Ok(Command::ShowPins { enclave })
}

/// `show routes ..` or `show pins ..`.
#[tactic(auto, unfolding(crate::specs::Forms::show_three, crate::specs::Forms::either))]
pub fn show_three(words: &[&[u8]]) -> Result<Command, SyntaxFault>
    requires { length words.now ≡ 3 }
    ensures { result ≡ form.show_three (texts words.now) }
{
    if is_word(words, 1, b"routes") {
        routes(words)
    } else if is_word(words, 1, b"pins") {
        pins(words)
    } else {
        Err(SyntaxFault::Keyword(1))
    }
}

/// `show pool` or `show names`.
#[tactic(auto, unfolding(crate::specs::Forms::show_two))]
pub fn show_two(words: &[&[u8]]) -> Result<Command, SyntaxFault>
    requires { length words.now ≡ 2 }
    ensures { result ≡ form.show_two (texts words.now) }
{
    either(
        words,
        1,
        b"pool",
        Command::ShowPool,
        b"names",
        Command::ShowNames,
    )
}
