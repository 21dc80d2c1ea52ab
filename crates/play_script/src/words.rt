// What one line says: nothing, text, or by its words a root, the beginning of an edit, or a command.
ghost use Rattle.std.specs.Prelude.{◌≡◌, map};
ghost use Rattle.hmr_types.specs.ModName.{is_text};
ghost use Rattle.play_script.specs.Script.{Gives, whole_line_in, words, said_in, in_form};
ghost use Rattle.play_script.specs.Script.{command, known_word, no_word, one_name, one_client};
ghost use Rattle.play_script.specs.Script.{opening, settle, turns, emission, fresh};

use crate::arguments::{
    only_word, read_count, read_event, read_name, read_names, read_text, read_version,
};
use crate::cutting::words_of;
use crate::fault::{Refusal, ScriptKind};
use crate::form::Form;
use crate::script_line::ScriptLine;
use hmr_types::{ClientId, ModName};
use std::alloc::Global;

/// The first word of a line.
#[derive(Clone, Copy)]
pub enum Word {
    /// `root`
    Root,
    /// `quiet`
    Quiet,
    /// `edit`
    Edit,
    /// `remove`
    Remove,
    /// `settle`
    Settle,
    /// `open`
    Open,
    /// `open2`
    Open2,
    /// `close`
    Close,
    /// `turn`
    Turn,
    /// `turns`
    Turns,
    /// `emit`
    Emit,
    /// `hear`
    Hear,
    /// `show`
    Show,
    /// `values`
    Values,
    /// `fates`
    Fates,
    /// `fresh`
    Fresh,
}

/// What a line says.
#[derive(Drop)]
pub enum Said {
    /// Nothing: the line is empty, or begins with `#`.
    Nothing,
    /// A line of text, behind its `|`.
    Text,
    /// A root of the page.
    Root(ModName),
    /// An edit, whose text comes below.
    Edit(ModName),
    /// A whole command.
    Command(ScriptLine),
}

/// What a line that LF ends says in a script of this form.
pub fn read_whole_line(alloc: Global, form: Form, line: &[u8]) -> Result<Said, Refusal>
    ensures { Gives (λ s. s) result (whole_line_in form line.now) }
{
    match line {
        [] | [b'#', ..] => Ok(Said::Nothing),
        [b'|', ..] => Ok(Said::Text),
        _ => read_words(alloc, form, line),
    }
}

fn read_words(alloc: Global, form: Form, line: &[u8]) -> Result<Said, Refusal>
    ensures { Gives (λ s. s) result (said_in form (words line.now)) }
{
    let words = words_of(alloc, line)?;
    match words.as_slice() {
        [word, arguments @ ..] => {
            let known = known_word(word)?;
            let word = in_form(form, known)?;
            read_command(alloc, word, arguments)
        }
        [] => Err(Refusal::Fault(ScriptKind::UnknownWord)),
    }
}

fn read_command(alloc: Global, word: Word, arguments: &[&[u8]]) -> Result<Said, Refusal>
    ensures { Gives (λ s. s) result (command word (map (λ w. w.now) arguments.now)) }
{
    match word {
        Word::Root => Ok(Said::Root(read_only_name(alloc, arguments)?)),
        Word::Quiet => alone(arguments, ScriptLine::Quiet),
        Word::Edit => Ok(Said::Edit(read_only_name(alloc, arguments)?)),
        Word::Remove => Ok(Said::Command(ScriptLine::Remove(read_only_name(alloc, arguments)?))),
        Word::Settle => read_settle(alloc, arguments),
        Word::Open => read_opening(alloc, 1, arguments),
        Word::Open2 => read_opening(alloc, 2, arguments),
        Word::Close => Ok(Said::Command(ScriptLine::Close(read_client(arguments)?))),
        Word::Turn => Ok(Said::Command(ScriptLine::Turn(read_client(arguments)?))),
        Word::Turns => read_turns(arguments),
        Word::Emit => read_emission(alloc, arguments),
        Word::Hear => Ok(Said::Command(ScriptLine::Hear(read_client(arguments)?))),
        Word::Show => Ok(Said::Command(ScriptLine::Show(read_client(arguments)?))),
        Word::Values => Ok(Said::Command(ScriptLine::Values(read_client(arguments)?))),
        Word::Fates => Ok(Said::Command(ScriptLine::Fates(read_client(arguments)?))),
        Word::Fresh => read_fresh(arguments),
    }
}

fn alone(arguments: &[&[u8]], line: ScriptLine) -> Result<Said, Refusal>
    ensures { Gives (λ s. s) result (no_word line (map (λ w. w.now) arguments.now)) }
{
    match arguments {
        [] => Ok(Said::Command(line)),
        _ => Err(Refusal::Fault(ScriptKind::WordCount)),
    }
}

fn read_only_name(alloc: Global, arguments: &[&[u8]]) -> Result<ModName, Refusal>
    ensures { Gives (λ name. name) result (one_name (map (λ w. w.now) arguments.now)) }
{
    let word = only_word(arguments)?;
    read_name(alloc, word)
}

fn read_client(arguments: &[&[u8]]) -> Result<ClientId, Refusal>
    ensures { Gives (λ client. client) result (one_client (map (λ w. w.now) arguments.now)) }
{
    let word = only_word(arguments)?;
    read_count(word)
}

fn read_opening(alloc: Global, format: u8, arguments: &[&[u8]]) -> Result<Said, Refusal>
    ensures { Gives (λ s. s) result (opening format (map (λ w. w.now) arguments.now)) }
{
    let roots = read_names(alloc, arguments)?;
    Ok(Said::Command(ScriptLine::Open(format, roots)))
}

fn read_settle(alloc: Global, arguments: &[&[u8]]) -> Result<Said, Refusal>
    ensures { Gives (λ s. s) result (settle (map (λ w. w.now) arguments.now)) }
{
    match arguments {
        [] => Ok(Said::Command(ScriptLine::SettleAll)),
        [name, version] => {
            let name = read_name(alloc, name)?;
            let version = read_version(version)?;
            Ok(Said::Command(ScriptLine::Settle(name, version)))
        }
        _ => Err(Refusal::Fault(ScriptKind::WordCount)),
    }
}

fn read_turns(arguments: &[&[u8]]) -> Result<Said, Refusal>
    ensures { Gives (λ s. s) result (turns (map (λ w. w.now) arguments.now)) }
{
    match arguments {
        [client, most] => {
            let client = read_count(client)?;
            let most = read_count(most)?;
            Ok(Said::Command(ScriptLine::Turns(client, most)))
        }
        _ => Err(Refusal::Fault(ScriptKind::WordCount)),
    }
}

fn read_emission(alloc: Global, arguments: &[&[u8]]) -> Result<Said, Refusal>
    ensures { Gives (λ s. s) result (emission (map (λ w. w.now) arguments.now)) }
{
    match arguments {
        [event, text] => {
            let event = read_event(alloc, event)?;
            let text = read_text(alloc, text)?;
            Ok(Said::Command(ScriptLine::Emit(event, text)))
        }
        _ => Err(Refusal::Fault(ScriptKind::WordCount)),
    }
}

fn read_fresh(arguments: &[&[u8]]) -> Result<Said, Refusal>
    ensures { Gives (λ s. s) result (fresh (map (λ w. w.now) arguments.now)) }
{
    match arguments {
        [] => Ok(Said::Command(ScriptLine::Fresh)),
        [client] => {
            let client = read_count(client)?;
            Ok(Said::Command(ScriptLine::FreshOf(client)))
        }
        _ => Err(Refusal::Fault(ScriptKind::WordCount)),
    }
}

fn known_word(word: &[u8]) -> Result<Word, Refusal>
    ensures { Gives (λ w. w) result (known_word word.now) }
{
    if is_text(word, b"root") {
        return Ok(Word::Root);
    }
    if is_text(word, b"quiet") {
        return Ok(Word::Quiet);
    }
    if is_text(word, b"edit") {
        return Ok(Word::Edit);
    }
    if is_text(word, b"remove") {
        return Ok(Word::Remove);
    }
    if is_text(word, b"settle") {
        return Ok(Word::Settle);
    }
    if is_text(word, b"open") {
        return Ok(Word::Open);
    }
    if is_text(word, b"open2") {
        return Ok(Word::Open2);
    }
    if is_text(word, b"close") {
        return Ok(Word::Close);
    }
    if is_text(word, b"turn") {
        return Ok(Word::Turn);
    }
    if is_text(word, b"turns") {
        return Ok(Word::Turns);
    }
    if is_text(word, b"emit") {
        return Ok(Word::Emit);
    }
    if is_text(word, b"hear") {
        return Ok(Word::Hear);
    }
    if is_text(word, b"show") {
        return Ok(Word::Show);
    }
    if is_text(word, b"values") {
        return Ok(Word::Values);
    }
    if is_text(word, b"fates") {
        return Ok(Word::Fates);
    }
    if is_text(word, b"fresh") {
        return Ok(Word::Fresh);
    }
    Err(Refusal::Fault(ScriptKind::UnknownWord))
}

/// The word, where this form of script has it.
fn in_form(form: Form, word: Word) -> Result<Word, Refusal>
    ensures { Gives (λ w. w) result (in_form form word) }
{
    match (form, word) {
        (Form::Page, word) => Ok(word),
        (Form::Edits, Word::Edit | Word::Remove) => Ok(word),
        (Form::Edits, _) => Err(Refusal::Fault(ScriptKind::UnknownWord)),
    }
}

fn is_text(word: &[u8], text: &[u8]) -> bool
    ensures { result ≡ is_text word.now text.now }
{
    word == text
}
