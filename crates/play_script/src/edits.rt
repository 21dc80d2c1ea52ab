// Edits, read from their text one by one.
ghost use Rattle.std.specs.Prelude.{◌≡◌, [], ◌∷◌, IfOk, MatchOption, OnErr};
ghost use Rattle.play_script.specs.Edits.{IsNextEdit, edit_of, edits_in};

use crate::commands::next_command;
use crate::script_line::ScriptLine;
use hmr_types::{ModName, Sequence};
use std::alloc::{AllocError, Global};
use std::marker::Model;

/// The name of a module and its text, or no text where the module is taken away.
pub type Edit = (ModName, Option<Sequence<u8>>);

/// The edits of a text that are left. Contracts see their list.
#[derive(Drop)]
pub struct Edits<'a> {
    left: &'a [u8],
}

impl<'a> Model for Edits<'a> {
    ghost use Rattle.std.specs.Prelude.{List};
    ghost use Rattle.play_script.specs.Edits.{Edit, edits_in};

    ghost Value = { List Edit };

    ghost view = { λ e. edits_in e.left.now };
}

impl<'a> Edits<'a> {
    /// The edits of a text.
    pub(crate) fn of(text: &'a [u8]) -> Edits<'a>
        ensures { result ≡ edits_in text.now }
    {
        Edits { left: text }
    }

    /// The first of the edits that are left, which is then gone from them; or `None` where none is left.
    ///
    /// An error comes only where memory ran out, and those left are then as before. The memory is that
    /// of the edit and of the words of one line. The time of all calls to the last edit is linear in the
    /// text.
    pub fn next(&mut self, alloc: Global) -> Result<Option<Edit>, AllocError>
        ensures next { IfOk result (λ next. IsNextEdit next self.old self.new) }
        ensures refused { OnErr result (self.new ≡ self.old) }
    {
        match next_edit(alloc, self.left)? {
            Some((edit, below)) => {
                self.left = below;
                Ok(Some(edit))
            }
            None => Ok(None),
        }
    }
}

/// The first edit of a text, and what stands below it.
fn next_edit(alloc: Global, text: &[u8]) -> Result<Option<(Edit, &[u8])>, AllocError>
    ensures { IfOk result (λ found. MatchOption found (edits_in text.now ≡ [])
        (λ f. edits_in text.now ≡ f.0 ∷ edits_in f.1.now)) }
{
    let mut left = text;
    while let Some(found) = next_command(alloc, left)? {
        left = found.below;
        if let Some(edit) = edit_of(found.command) {
            return Ok(Some((edit, left)));
        }
    }
    Ok(None)
}

fn edit_of(command: ScriptLine) -> Option<Edit>
    ensures { result ≡ edit_of command }
{
    match command {
        ScriptLine::Edit(name, text) => Some((name, Some(text))),
        ScriptLine::Remove(name) => Some((name, None)),
        _ => None,
    }
}
