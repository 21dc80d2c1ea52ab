// The edits of a script of edits, read from the input.
ghost use Rattle.std.specs.Prelude.{◌≡◌, ◌≤◌, All, IfErr, IfOk, IsErrOf, Ok, OnOk, false, length, true};
ghost use Rattle.std.specs.Io.KnownBytes.{IsAtEnd};
ghost use Rattle.hmr_base.specs.Causes.{Rose};
ghost use Rattle.hmr_types.specs.declared.limits.TheConstants.{MESSAGE_BYTES, SCRIPT_BYTES};
ghost use Rattle.hub_editor.specs.Edits.{edits_in, length_of, text_in};
ghost use Rattle.play_script.specs.Edits as scripts;
ghost use Rattle.edit_input.specs.Inputs.{HasScript, IsEditStop, IsScriptStop};

use hmr_base::{Source, read_all};
use hmr_types::ModName;
use hmr_types::limits::SCRIPT_BYTES;
use play_script::{Edit, Edits, read_edits};
use std::alloc::{AllocError, Global};
use text_commands::{Stop, stop_of_fault};

/// The edits of the input, where they are asked for: at most 16,777,216 bytes are read, to the end of the input.
/// An edit has no more bytes in its name and text than a message may have. It stops with [`Stop::TooLong`] past
/// that, with [`Stop::Faulty`] and the line of the first fault where the bytes say no edits, with
/// [`Stop::Unread`] where a read failed, and with [`Stop::NoMemory`]; nothing is read where no edits are asked
/// for. It takes time and memory in proportion to the bytes.
pub fn script_of<S: Source>(
    alloc: Global,
    asked: bool,
    input: &mut S,
) -> Result<Vec<(ModName, Option<Vec<u8>>)>, Stop>
    ensures script { IfOk result (λ script. HasScript asked (S.left input.old) (edits_in script.items)) }
    ensures short { IfOk result (λ script. All (λ e. length_of e ≤ MESSAGE_BYTES) (edits_in script.items)) }
    ensures asked { IfErr result (λ _. asked ≡ true) }
    ensures stops { IfErr result (IsScriptStop (S.left input.old)) }
    ensures unread { IsErrOf result Stop.Unread → Rose (S.faults input.old) (S.faults input.new) }
    ensures end { OnOk result (asked ≡ true → IsAtEnd (S.left input.new)) }
    ensures untouched { asked ≡ false → input.new ≡ input.old }
{
    if !asked {
        return Ok(Vec::new(alloc));
    }
    let bytes = read_all(alloc, input, SCRIPT_BYTES)?;
    edits_of(alloc, &bytes)
}

// The edits that bytes say.
fn edits_of(alloc: Global, bytes: &[u8]) -> Result<Vec<(ModName, Option<Vec<u8>>)>, Stop>
    requires short { length bytes.now ≤ SCRIPT_BYTES }
    ensures script { IfOk result (λ script. scripts.edits_of bytes.now ≡ Ok (edits_in script.items)) }
    ensures short { IfOk result (λ script. All (λ e. length_of e ≤ MESSAGE_BYTES) (edits_in script.items)) }
    ensures stops { IfErr result (IsEditStop bytes.now) }
{
    match read_edits(alloc, bytes) {
        Ok(edits) => {
            let script = all_of(alloc, edits)?;
            Ok(script)
        }
        Err(refusal) => Err(stop_of_fault(alloc, refusal)),
    }
}

// All edits of a text.
fn all_of(
    alloc: Global,
    mut edits: Edits<'_>,
) -> Result<Vec<(ModName, Option<Vec<u8>>)>, AllocError>
    ensures { IfOk result (λ script. edits_in script.items ≡ edits.entry) }
{
    let mut script = Vec::new(alloc);
    'edits: while let Some(edit) = edits.next(alloc)? {
        script.push(owned(edit))?;
    }
    Ok(script)
}

// An edit as it is handed over.
fn owned(edit: Edit) -> (ModName, Option<Vec<u8>>)
    ensures { (result.0, text_in result.1) ≡ edit }
{
    let (name, text) = edit;
    match text {
        Some(text) => (name, Some(text.into_vec())),
        None => (name, None),
    }
}
