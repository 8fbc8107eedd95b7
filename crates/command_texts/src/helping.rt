ghost use Rattle.std.specs.Prelude.{◌≡◌, find, is_some, option_map};
ghost use Rattle.pawn_outside.specs.Said.{Said};
ghost use Rattle.command_texts.specs.Forms.{form_by, forms_by, has_word, helped, is_word};
ghost use Rattle.command_texts.specs.Forms.{form_text, forms_text};

use super::forms::{Form, forms};
use pawn_outside::{Sink, SinkFault, say};

/// Writes the form of each command, or of the one with a word, with what it does.
pub fn help<S: Sink>(asked: Option<&str>, out: &mut S) -> Result<(), SinkFault>
    ensures { let text = helped (option_map (λ word. word.now) asked.entry) in
        Said S.taken S.faults S.has_room out.old out.new text result }
{
    say_forms(forms(), asked, out)
}

/// Writes what is told of some commands.
fn say_forms<S: Sink>(forms: &[Form], asked: Option<&str>, out: &mut S) -> Result<(), SinkFault>
    ensures { let word = option_map (λ word. word.now) asked.entry in
        let text = forms_text word (forms_by forms.now) in
        Said S.taken S.faults S.has_room out.old out.new text result }
{
    for form in forms {
        say_form(form, asked, out)?;
    }
    Ok(())
}

/// Writes what is told of a command.
fn say_form<S: Sink>(it: &Form, asked: Option<&str>, out: &mut S) -> Result<(), SinkFault>
    ensures { let word = option_map (λ word. word.now) asked.entry in
        let text = form_text word (form_by it.now) in
        Said S.taken S.faults S.has_room out.old out.new text result }
{
    let form = it.1.as_bytes();
    match asked {
        None => say(out, &[form, b"\n"]),
        Some(word) if it.0 == word => say(out, &[form, b"\n  ", it.2.as_bytes(), b"\n"]),
        Some(_) => Ok(()),
    }
}

/// Whether a word is a command's.
pub fn is_word(word: &str) -> bool
    ensures { result ≡ is_word word.now }
{
    has_form(forms(), word)
}

/// Whether one of these commands has a word.
fn has_form(forms: &[Form], word: &str) -> bool
    ensures { result ≡ is_some (find (has_word word.now) (forms_by forms.now)) }
{
    for form in forms {
        if form.0 == word {
            return true;
        }
    }
    false
}
