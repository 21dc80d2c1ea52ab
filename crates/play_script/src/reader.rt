// Reads a script of either form. Its lines are gone over once: each is checked by itself and against those
// before it, and the first that is refused is the answer of all. Only the roots are kept.
ghost use Rattle.std.specs.Prelude.{◌≡◌, ◌≤◌, ◌↔◌, [], length, IsTrue};
ghost use Rattle.std.specs.Str.{is_utf8, IsUtf8};
ghost use Rattle.play_script.specs.Script.{Gives, IsReading, beginning, checked, line_read};
ghost use Rattle.play_script.specs.Script.{line_said_in, lines_from, numbered, script_of};
ghost use Rattle.play_script.specs.Edits.{edits_of};

use crate::cutting::first_line;
use crate::draft::Draft;
use crate::edits::Edits;
use crate::fault::{Refusal, ScriptKind, ScriptRefusal};
use crate::form::Form;
use crate::script::Script;
use crate::words::{Said, read_whole_line};
use hmr_types::limits::SCRIPT_LINE_BYTES;
use std::alloc::Global;

/// The script that the bytes say, at most 4,294,967,295 of them.
///
/// A refusal is the fault of the first line that has one, and its first fault; or that memory ran out.
/// The time is linear in the bytes. The memory is that of the roots and, meanwhile, of
/// the words and names of one line: no command is kept.
pub fn read_script(alloc: Global, text: &[u8]) -> Result<Script<'_>, ScriptRefusal>
    requires { length text.now ≤ 4294967295 }
    ensures { IsReading result (script_of text.now) }
{
    match check_lines(alloc, Form::Page, text) {
        Ok(draft) => Ok(Script::new(draft.roots, text)),
        Err(refusal) => Err(refusal),
    }
}

/// The edits that the bytes say, at most 4,294,967,295 of them: the lines of a script that has no command
/// but `edit` and `remove`, and needs no root.
///
/// A refusal is as of [`read_script`], where every other command is an unknown word. The time is linear in
/// the bytes. The memory is, meanwhile, that of the words and the name of one line: no edit is kept.
pub fn read_edits(alloc: Global, text: &[u8]) -> Result<Edits<'_>, ScriptRefusal>
    requires { length text.now ≤ 4294967295 }
    ensures { IsReading result (edits_of text.now) }
{
    check_lines(alloc, Form::Edits, text)?;
    Ok(Edits::of(text))
}

fn check_lines(alloc: Global, form: Form, text: &[u8]) -> Result<Draft, ScriptRefusal>
    requires { length text.now ≤ 4294967295 }
    ensures { IsReading result (checked (beginning form) 1 (lines_from [] text.now)) }
{
    let mut draft = Draft::new(alloc, form);
    let mut passed: u32 = 0;
    let mut left = text;
    while let Some(first) = first_line(left) {
        passed += 1;
        draft = read_numbered(alloc, draft, passed, first.bytes, first.ended)?;
        left = first.below;
    }
    Ok(draft)
}

fn read_numbered(
    alloc: Global,
    draft: Draft,
    number: u32,
    line: &[u8],
    ended: bool,
) -> Result<Draft, ScriptRefusal>
    ensures { IsReading result (numbered number (line_read draft line.now ended)) }
{
    match read_line(alloc, draft, line, ended) {
        Ok(draft) => Ok(draft),
        Err(refusal) => Err(refusal.at(number)),
    }
}

fn read_line(alloc: Global, draft: Draft, line: &[u8], ended: bool) -> Result<Draft, Refusal>
    ensures { Gives (λ d. d) result (line_read draft line.now ended) }
{
    let said = line_said(alloc, draft.form, line, ended)?;
    draft.placed(said)
}

fn line_said(alloc: Global, form: Form, line: &[u8], ended: bool) -> Result<Said, Refusal>
    ensures { Gives (λ s. s) result (line_said_in form line.now ended) }
{
    if !is_utf8(line) {
        return Err(Refusal::Fault(ScriptKind::NotUtf8));
    }
    if line.len() > SCRIPT_LINE_BYTES {
        return Err(Refusal::Fault(ScriptKind::LineTooLong));
    }
    if !ended {
        return Err(Refusal::Fault(ScriptKind::CutLine));
    }
    read_whole_line(alloc, form, line)
}

fn is_utf8(line: &[u8]) -> bool
    ensures { result ≡ is_utf8 line.now }
{
    is_read_as_text(line)
}

fn is_read_as_text(line: &[u8]) -> bool
    ensures { IsTrue result ↔ IsUtf8 line.now }
{
    std::str::from_utf8(line).is_ok()
}
