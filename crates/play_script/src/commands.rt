// The commands of a script, read from its text one by one: the lines are gone over until one says a
// command, and the text of an edit is taken from the lines of text directly below it.
ghost use Rattle.std.specs.Prelude.{◌≡◌, [], ◌∷◌, ◌++◌};
ghost use Rattle.std.specs.Prelude.{IfOk, IfSome, OnOk, OnErr, MatchOption, codes, option_map};
ghost use Rattle.play_script.specs.Script.{Line, command_of, commands, lines_from};
ghost use Rattle.play_script.specs.Script.{text_below, text_of, whole_line};
ghost use Rattle.play_script.specs.Asked.{HasFormat, IsNext};

use crate::cutting::first_line;
use crate::fault::Refusal;
use crate::form::Form;
use crate::script_line::ScriptLine;
use crate::words::{Said, read_whole_line};
use hmr_types::Sequence;
use std::alloc::{AllocError, Global};
use std::marker::Model;

/// The commands of a script that are left. Contracts see their list.
#[derive(Drop)]
pub struct Commands<'a> {
    left: &'a [u8],
}

impl<'a> Model for Commands<'a> {
    ghost use Rattle.std.specs.Prelude.{List, []};
    ghost use Rattle.play_script.specs.declared.script_line.ScriptLine.{ScriptLine};
    ghost use Rattle.play_script.specs.Script.{commands, lines_from};

    ghost Value = { List ScriptLine };

    ghost view = { λ c. commands (lines_from [] c.left.now) };
}

/// A command, and the text below its line.
#[derive(Drop)]
pub(crate) struct Found<'a> {
    pub(crate) command: ScriptLine,
    pub(crate) below: &'a [u8],
}

impl<'a> Commands<'a> {
    /// The commands of a text.
    pub(crate) fn of(text: &'a [u8]) -> Commands<'a>
        ensures { result ≡ commands (lines_from [] text.now) }
    {
        Commands { left: text }
    }

    /// The first of the commands that are left, which is then gone from them; or `None` where none is
    /// left. One that opens a client opens it in format 1 or 2.
    ///
    /// An error comes only where memory ran out, and those left are then as before. The memory is that
    /// of the command and of the words of one line. The time of all calls to the last command is
    /// linear in the text.
    pub fn next(&mut self, alloc: Global) -> Result<Option<ScriptLine>, AllocError>
        ensures next { IfOk result (λ next. IsNext next self.old self.new) }
        ensures format { IfOk result (λ next. IfSome next HasFormat) }
        ensures refused { OnErr result (self.new ≡ self.old) }
    {
        match next_command(alloc, self.left)? {
            Some(Found { command, below }) => {
                self.left = below;
                Ok(Some(command))
            }
            None => Ok(None),
        }
    }
}

/// The first command of a text, where there is one.
pub(crate) fn next_command(alloc: Global, text: &[u8]) -> Result<Option<Found<'_>>, AllocError>
    ensures { IfOk result
        (λ found. MatchOption found (commands (lines_from [] text.now) ≡ [])
        (λ f. commands (lines_from [] text.now) ≡ f.command ∷ commands (lines_from [] f.below.now))) }
{
    let mut left = text;
    while let Some(first) = first_line(left) {
        left = first.below;
        if let Some(command) = command_of(alloc, first.bytes, left)? {
            return Ok(Some(Found {
                command,
                below: left,
            }));
        }
    }
    Ok(None)
}

/// The command that a line says above these lines, where it says one. In a script no line has a fault.
fn command_of(alloc: Global, line: &[u8], below: &[u8]) -> Result<Option<ScriptLine>, AllocError>
    ensures { IfOk result (λ command. command ≡ command_of (whole_line line.now) (lines_from [] below.now)) }
{
    match read_whole_line(alloc, Form::Page, line) {
        Ok(Said::Edit(name)) => {
            let text = text_below(alloc, below)?;
            Ok(Some(ScriptLine::Edit(name, text)))
        }
        Ok(Said::Command(command)) => Ok(Some(command)),
        Ok(Said::Nothing | Said::Text | Said::Root(_)) => Ok(None),
        Err(Refusal::Fault(_)) => Ok(None),
        Err(Refusal::NoMemory) => Err(AllocError),
    }
}

fn text_below(alloc: Global, below: &[u8]) -> Result<Sequence<u8>, AllocError>
    ensures { IfOk result (λ text. text ≡ text_below (lines_from [] below.now)) }
{
    let mut text = Vec::new(alloc);
    let mut left = below;
    while let Some(first) = first_line(left) {
        let Some(bytes) = text_of(first.bytes) else {
            return Ok(Sequence::from_vec(text));
        };
        put_line(&mut text, bytes)?;
        left = first.below;
    }
    Ok(Sequence::from_vec(text))
}

fn put_line(text: &mut Vec<u8>, line: &[u8]) -> Result<(), AllocError>
    ensures { OnOk result (text.new.items ≡ text.old.items ++ (line.now ++ codes "\n")) }
{
    text.extend_from_slice(line)?;
    text.push(b'\n')?;
    Ok(())
}

fn text_of(line: &[u8]) -> Option<&[u8]>
    ensures { option_map (λ text. text.now) result ≡ text_of line.now }
{
    match line {
        [b'|', text @ ..] => Some(text),
        _ => None,
    }
}
