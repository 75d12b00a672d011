// What a line of a scenario says.
ghost use Rattle.std.specs.Prelude.{◌≡◌, ◌<◌, length, true, None, Some, IfOk, IfErr, OnErr};
ghost use Rattle.std.specs.Option.{option_map};
ghost use Rattle.command_reader.specs.declared.fault.SyntaxFault.TheVariants as faults;
ghost use Rattle.command_reader.specs.Forms as spec;
ghost use Rattle.command_reader.specs.Forms.{command_of};
ghost use Rattle.command_reader.specs.Rows.{texts, count_of, read_of, forms_of, is_counted, misfit_after};
ghost use Rattle.command_reader.specs.Scenario as scenario;
ghost use Rattle.command_reader.specs.Scenario.{line_command};

use crate::slots::is_word;
use crate::{SyntaxFault, forms};
use text_words::words;
use xemem_language::Command;

// The forms of commands. `show` has one for each number of its words.
#[derive(Clone, Copy)]
enum Form {
    Pool,
    Host,
    HostNs,
    Boot,
    BootNs,
    Proc,
    Alloc,
    Free,
    Make,
    Remove,
    Get,
    Release,
    Attach,
    Detach,
    Exit,
    Touch,
    Deliver,
    Settle,
    Kill,
    Stop,
    ShowFour,
    ShowThree,
    ShowTwo,
}

// The first word of each form, how many words it has, and which form it is.
const FORMS: [(&[u8], usize, Form); 23] = [
    (b"pool", 2, Form::Pool),
    (b"host", 2, Form::Host),
    (b"host", 3, Form::HostNs),
    (b"boot", 6, Form::Boot),
    (b"boot", 7, Form::BootNs),
    (b"proc", 4, Form::Proc),
    (b"alloc", 5, Form::Alloc),
    (b"free", 5, Form::Free),
    (b"make", 6, Form::Make),
    (b"remove", 4, Form::Remove),
    (b"get", 5, Form::Get),
    (b"release", 4, Form::Release),
    (b"attach", 7, Form::Attach),
    (b"detach", 4, Form::Detach),
    (b"exit", 3, Form::Exit),
    (b"touch", 5, Form::Touch),
    (b"deliver", 4, Form::Deliver),
    (b"settle", 2, Form::Settle),
    (b"kill", 4, Form::Kill),
    (b"stop", 2, Form::Stop),
    (b"show", 4, Form::ShowFour),
    (b"show", 3, Form::ShowThree),
    (b"show", 2, Form::ShowTwo),
];

// The form that the words have, or what is wrong with them.
fn form_of(table: &[(&[u8], usize, Form)], words: &[&[u8]]) -> Result<Form, SyntaxFault>
    requires some { 0 < length words.now }
    requires counts { is_counted table.now ≡ true }
    ensures count { IfOk result (λ form. length words.now ≡ count_of form) }
    ensures form { IfOk result (λ form. option_map (λ f. f.read) (spec.form_of (forms_of table.now) (texts words.now)) ≡ Some (read_of form)) }
    ensures fault { IfErr result (λ fault. fault ≡ misfit_after faults.Word (texts words.now) (forms_of table.now)) }
    ensures none { OnErr result (spec.form_of (forms_of table.now) (texts words.now) ≡ None) }
{
    let mut fault = SyntaxFault::Word;
    for (first, count, form) in table {
        if is_word(words, 0, first) {
            if words.len() == *count {
                return Ok(*form);
            }
            fault = SyntaxFault::Count;
        }
    }
    Err(fault)
}

// The command that the words of a form spell.
fn read(form: Form, words: &[&[u8]]) -> Result<Command, SyntaxFault>
    requires { length words.now ≡ count_of form }
    ensures { result ≡ read_of form (texts words.now) }
{
    match form {
        Form::Pool => forms::pool(words),
        Form::Host => forms::host(words),
        Form::HostNs => forms::host_ns(words),
        Form::Boot => forms::boot(words),
        Form::BootNs => forms::boot_ns(words),
        Form::Proc => forms::proc(words),
        Form::Alloc => forms::alloc(words),
        Form::Free => forms::free(words),
        Form::Make => forms::make(words),
        Form::Remove => forms::remove(words),
        Form::Get => forms::get(words),
        Form::Release => forms::release(words),
        Form::Attach => forms::attach(words),
        Form::Detach => forms::detach(words),
        Form::Exit => forms::exit(words),
        Form::Touch => forms::touch(words),
        Form::Deliver => forms::deliver(words),
        Form::Settle => forms::settle(words),
        Form::Kill => forms::kill(words),
        Form::Stop => forms::stop(words),
        Form::ShowFour => forms::show_four(words),
        Form::ShowThree => forms::show_three(words),
        Form::ShowTwo => forms::show_two(words),
    }
}

/// The command that words spell, or what is wrong with them.
#[tactic(auto, unfolding(crate::specs::Forms::command_of))]
pub fn command(words: &[&[u8]]) -> Result<Command, SyntaxFault>
    requires { 0 < length words.now }
    ensures { result ≡ command_of (texts words.now) }
{
    match form_of(&FORMS, words) {
        Ok(form) => read(form, words),
        Err(fault) => Err(fault),
    }
}

// Whether the words begin no command: there are none, or the first begins with `#`.
fn is_comment(words: &[&[u8]]) -> bool
    ensures { result ≡ scenario.is_comment (texts words.now) }
{
    words.is_empty() || (!words[0].is_empty() && words[0][0] == b'#')
}

/// The command that a line of a scenario spells, nothing where it is a comment, or what is wrong with it. The line has
/// no line feed.
pub fn read_command(text: &[u8]) -> Result<Option<Command>, SyntaxFault>
    ensures { result ≡ line_command text.now }
{
    let kept = words(text);
    let words = kept.as_slice();
    if is_comment(words) {
        return Ok(None);
    }
    match command(words) {
        Ok(command) => Ok(Some(command)),
        Err(fault) => Err(fault),
    }
}
