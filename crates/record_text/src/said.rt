// What one line of a record says by itself, whatever stands before it.
ghost use Rattle.std.specs.Prelude.{◌≡◌, IfOk, map};
ghost use Rattle.hmr_types.specs.ModName.{is_text};
ghost use Rattle.play_script.specs.Script.{words};
ghost use Rattle.record_text.specs.Lines.{Gives, said_of, said_by, said_in, known_word, last_piece};
ghost use Rattle.record_text.specs.Lines.{reply_said, settle, fetch, invalidate, client_table, one_name};
ghost use Rattle.record_text.specs.Lines.{one_client, piece_of};
ghost use Rattle.record_text.specs.declared.said.Said.TheVariants as says;

use crate::arguments::{
    only_client, only_name, read_client, read_name, read_names, read_table, read_version,
};
use crate::record::RecordEvent;
use crate::refusal::Refusal;
use crate::reply_form::is_reply;
use hmr_types::{ClientId, ModName, Sequence, Table};
use play_script::words_of;
use std::alloc::{AllocError, Global};

/// What a line says.
#[derive(Drop)]
pub enum Said {
    /// A root of the core.
    Root(ModName),
    /// An event, without the text that may come below.
    Event(RecordEvent),
    /// A piece of a text that LF ends, with its LF.
    Text(Sequence<u8>),
    /// The last piece of a text, which no LF ends.
    Last(Sequence<u8>),
    /// The text of a reply.
    Reply(Sequence<u8>),
    /// A client is at rest, with this table.
    Rest(ClientId, Table),
}

/// The first word of a line.
#[derive(Clone, Copy)]
pub(crate) enum Word {
    /// `root`
    Root,
    /// `edit`
    Edit,
    /// `remove`
    Remove,
    /// `settle`
    Settle,
    /// `connect`
    Connect,
    /// `ask`
    Ask,
    /// `fetch`
    Fetch,
    /// `applied`
    Applied,
    /// `aborted`
    Aborted,
    /// `invalidate`
    Invalidate,
    /// `disconnect`
    Disconnect,
    /// `rest`
    Rest,
}

/// What a line without its LF says. [`Refusal::BadLine`] comes where it has none of the forms of a line, and
/// [`Refusal::NoMemory`] where memory ran out. The time and the memory are in proportion to its bytes.
pub fn read_line(alloc: Global, line: &[u8]) -> Result<Said, Refusal>
    ensures { Gives (λ s. s) result (said_of line.now) }
{
    match line {
        [b'|', piece @ ..] => Ok(Said::Text(ended_piece(alloc, piece)?)),
        [b'~', piece @ ..] => read_last(alloc, piece),
        [b'=', reply @ ..] => read_reply(alloc, reply),
        [] => Err(Refusal::BadLine),
        _ => read_words(alloc, line),
    }
}

fn ended_piece(alloc: Global, piece: &[u8]) -> Result<Sequence<u8>, AllocError>
    ensures { IfOk result (λ p. p ≡ piece_of piece.now) }
{
    let mut bytes = Vec::from_slice(alloc, piece)?;
    bytes.push(b'\n')?;
    Ok(Sequence::from_vec(bytes))
}

fn read_last(alloc: Global, piece: &[u8]) -> Result<Said, Refusal>
    ensures { Gives (λ s. s) result (last_piece piece.now) }
{
    if piece.is_empty() {
        return Err(Refusal::BadLine);
    }
    let bytes = Vec::from_slice(alloc, piece)?;
    Ok(Said::Last(Sequence::from_vec(bytes)))
}

fn read_reply(alloc: Global, spaced: &[u8]) -> Result<Said, Refusal>
    ensures { Gives (λ s. s) result (reply_said spaced.now) }
{
    let [b' ', reply @ ..] = spaced else {
        return Err(Refusal::BadLine);
    };
    if !is_reply(alloc, reply)? {
        return Err(Refusal::BadLine);
    }
    let bytes = Vec::from_slice(alloc, reply)?;
    Ok(Said::Reply(Sequence::from_vec(bytes)))
}

fn read_words(alloc: Global, line: &[u8]) -> Result<Said, Refusal>
    ensures { Gives (λ s. s) result (said_by (words line.now)) }
{
    let words = words_of(alloc, line)?;
    match words.as_slice() {
        [word, arguments @ ..] => {
            let word = known_word(word)?;
            read_arguments(alloc, word, arguments)
        }
        [] => Err(Refusal::BadLine),
    }
}

fn read_arguments(alloc: Global, word: Word, arguments: &[&[u8]]) -> Result<Said, Refusal>
    ensures { Gives (λ s. s) result (said_in word (map (λ w. w.now) arguments.now)) }
{
    match word {
        Word::Root => Ok(Said::Root(only_name(alloc, arguments)?)),
        Word::Edit => {
            let name = only_name(alloc, arguments)?;
            Ok(Said::Event(RecordEvent::Edit(name, Sequence::new(alloc))))
        }
        Word::Remove => Ok(Said::Event(RecordEvent::Remove(only_name(alloc, arguments)?))),
        Word::Settle => read_settle(alloc, arguments),
        Word::Connect => Ok(Said::Event(RecordEvent::Connect(read_names(alloc, arguments)?))),
        Word::Ask => Ok(Said::Event(RecordEvent::Ask(only_client(arguments)?))),
        Word::Fetch => read_fetch(alloc, arguments),
        Word::Applied => {
            let (client, table) = read_client_table(alloc, arguments)?;
            Ok(Said::Event(RecordEvent::Applied(client, table)))
        }
        Word::Aborted => Ok(Said::Event(RecordEvent::Aborted(only_client(arguments)?))),
        Word::Invalidate => read_invalidate(alloc, arguments),
        Word::Disconnect => Ok(Said::Event(RecordEvent::Disconnect(only_client(arguments)?))),
        Word::Rest => {
            let (client, table) = read_client_table(alloc, arguments)?;
            Ok(Said::Rest(client, table))
        }
    }
}

fn read_settle(alloc: Global, arguments: &[&[u8]]) -> Result<Said, Refusal>
    ensures { Gives (λ s. s) result (settle (map (λ w. w.now) arguments.now)) }
{
    match arguments {
        [name, version] => {
            let name = read_name(alloc, name)?;
            let version = read_version(version)?;
            Ok(Said::Event(RecordEvent::Settle(name, Sequence::new(alloc), version)))
        }
        _ => Err(Refusal::BadLine),
    }
}

fn read_fetch(alloc: Global, arguments: &[&[u8]]) -> Result<Said, Refusal>
    ensures { Gives (λ s. s) result (fetch (map (λ w. w.now) arguments.now)) }
{
    match arguments {
        [client, name] => {
            let client = read_client(client)?;
            let name = read_name(alloc, name)?;
            Ok(Said::Event(RecordEvent::Fetch(client, name)))
        }
        _ => Err(Refusal::BadLine),
    }
}

fn read_invalidate(alloc: Global, arguments: &[&[u8]]) -> Result<Said, Refusal>
    ensures { Gives (λ s. s) result (invalidate (map (λ w. w.now) arguments.now)) }
{
    match arguments {
        [client, name, version] => {
            let client = read_client(client)?;
            let name = read_name(alloc, name)?;
            let version = read_version(version)?;
            Ok(Said::Event(RecordEvent::Invalidate(client, name, version)))
        }
        _ => Err(Refusal::BadLine),
    }
}

fn read_client_table(alloc: Global, arguments: &[&[u8]]) -> Result<(ClientId, Table), Refusal>
    ensures { Gives (λ t. t) result (client_table (map (λ w. w.now) arguments.now)) }
{
    match arguments {
        [client, rows @ ..] => {
            let client = read_client(client)?;
            let table = read_table(alloc, rows)?;
            Ok((client, table))
        }
        [] => Err(Refusal::BadLine),
    }
}

fn known_word(word: &[u8]) -> Result<Word, Refusal>
    ensures { Gives (λ w. w) result (known_word word.now) }
{
    if is_text(word, b"root") {
        return Ok(Word::Root);
    }
    if is_text(word, b"edit") {
        return Ok(Word::Edit);
    }
    if is_text(word, b"remove") {
        return Ok(Word::Remove);
    }
    if is_text(word, b"settle") {
        return Ok(Word::Settle);
    }
    if is_text(word, b"connect") {
        return Ok(Word::Connect);
    }
    if is_text(word, b"ask") {
        return Ok(Word::Ask);
    }
    if is_text(word, b"fetch") {
        return Ok(Word::Fetch);
    }
    if is_text(word, b"applied") {
        return Ok(Word::Applied);
    }
    if is_text(word, b"aborted") {
        return Ok(Word::Aborted);
    }
    if is_text(word, b"invalidate") {
        return Ok(Word::Invalidate);
    }
    if is_text(word, b"disconnect") {
        return Ok(Word::Disconnect);
    }
    if is_text(word, b"rest") {
        return Ok(Word::Rest);
    }
    Err(Refusal::BadLine)
}

/// Whether two texts have the same bytes.
pub(crate) fn is_text(word: &[u8], text: &[u8]) -> bool
    ensures { result ≡ is_text word.now text.now }
{
    word == text
}
