// What a core answered to an event, and its text.
ghost use Rattle.std.specs.Prelude.{◌≡◌, ◌++◌, IfOk, OnOk};
ghost use Rattle.play_text.specs.Lines.{text_fault};
ghost use Rattle.word_texts.specs.Words.{refusal_word};
ghost use Rattle.record_text.specs.Told.{IsTold, counted_text, refused_text, reply_text};

use crate::pieces::{put, put_number, put_spaced_number};
use hmr_types::{EditRefusal, Sequence, TextFault, Ver};
use message_text::encode;
use std::alloc::{AllocError, Global};
use update_msgs::ServerMsg;
use word_texts::fault_str;

/// A reply of a core, as a record tells it.
#[derive(Drop)]
pub enum RecordReply {
    /// The text is the source of its module now, with this version.
    Job(Ver),
    /// The edit changed nothing.
    Same,
    /// The module has no source from this version on.
    Removed(Ver),
    /// The edit is refused.
    EditRefused(EditRefusal),
    /// The text of the result is served from now on.
    Served,
    /// The text of the result is no module, with this first fault.
    RefusedText(TextFault),
    /// The result changes nothing.
    Late,
    /// The client is told this.
    Message(ServerMsg),
    /// The client is connected no more.
    Gone,
}

/// The text of a reply, as it stands behind `= ` in a record. A message in it is one that can be written in
/// format 2. It takes time and memory in proportion to the text.
pub fn write_reply(alloc: Global, reply: &RecordReply) -> Result<Sequence<u8>, AllocError>
    requires { IsTold reply.now }
    ensures { IfOk result (λ text. text ≡ reply_text reply.now) }
{
    match reply {
        RecordReply::Job(version) => counted(alloc, "job", *version),
        RecordReply::Same => worded(alloc, "same"),
        RecordReply::Removed(version) => counted(alloc, "removed", *version),
        RecordReply::EditRefused(refusal) => worded(alloc, refusal_str(*refusal)),
        RecordReply::Served => worded(alloc, "served"),
        RecordReply::RefusedText(fault) => refused(alloc, *fault),
        RecordReply::Late => worded(alloc, "late"),
        RecordReply::Message(msg) => Ok(Sequence::from_vec(encode(alloc, msg, 2)?)),
        RecordReply::Gone => worded(alloc, "gone"),
    }
}

fn worded(alloc: Global, word: &str) -> Result<Sequence<u8>, AllocError>
    ensures { IfOk result (λ text. text ≡ word.now) }
{
    Ok(Sequence::from_vec(Vec::from_slice(alloc, word.as_bytes())?))
}

fn counted(alloc: Global, word: &str, version: Ver) -> Result<Sequence<u8>, AllocError>
    ensures { IfOk result (λ text. text ≡ counted_text word.now version) }
{
    let mut out = Vec::from_slice(alloc, word.as_bytes())?;
    put_spaced_number(&mut out, version)?;
    Ok(Sequence::from_vec(out))
}

fn refused(alloc: Global, fault: TextFault) -> Result<Sequence<u8>, AllocError>
    ensures { IfOk result (λ text. text ≡ refused_text fault) }
{
    let mut out = Vec::from_slice(alloc, b"refused ")?;
    put_fault(&mut out, fault)?;
    Ok(Sequence::from_vec(out))
}

fn put_fault(out: &mut Vec<u8>, fault: TextFault) -> Result<(), AllocError>
    ensures { OnOk result (out.new.items ≡ out.old.items ++ text_fault fault) }
{
    put_number(out, u64::from(fault.line))?;
    put(out, ":")?;
    put_number(out, u64::from(fault.col))?;
    put(out, " ")?;
    put(out, fault_str(fault.word))
}

fn refusal_str(word: EditRefusal) -> &'static str
    ensures { result.now ≡ refusal_word word }
{
    match word {
        EditRefusal::TextTooLong => "text-too-long",
        EditRefusal::TooManyNames => "too-many-names",
        EditRefusal::SourceTotal => "source-total",
        EditRefusal::NumbersSpent => "numbers-spent",
    }
}
