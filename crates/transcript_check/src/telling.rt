// A core's reply, as a record tells it.
ghost use Rattle.std.specs.Prelude.{◌≡◌};
ghost use Rattle.record_laws.specs.Answers.{edit_told, reply_told, result_told};

use client_exchange::refusal_message;
use events_and_replies::Reply;
use record_text::RecordReply;
use version_map::{EditOutcome, Settled};

/// A core's reply, as a record tells it.
pub(crate) fn reply_told(reply: Reply) -> RecordReply
    ensures { result ≡ reply_told reply }
{
    match reply {
        Reply::Edited(outcome) => edit_told(outcome),
        Reply::EditRefused(refusal) => RecordReply::EditRefused(refusal),
        Reply::Settled(settled) => result_told(settled),
        Reply::To(message) => RecordReply::Message(message),
        Reply::Refused(refusal) => RecordReply::Message(refusal_message(refusal)),
        Reply::Gone => RecordReply::Gone,
    }
}

fn edit_told(outcome: EditOutcome) -> RecordReply
    ensures { result ≡ edit_told outcome }
{
    match outcome {
        EditOutcome::Job(version) => RecordReply::Job(version),
        EditOutcome::Same => RecordReply::Same,
        EditOutcome::Removed(version) => RecordReply::Removed(version),
    }
}

fn result_told(settled: Settled) -> RecordReply
    ensures { result ≡ result_told settled }
{
    match settled {
        Settled::Served => RecordReply::Served,
        Settled::RefusedText(fault) => RecordReply::RefusedText(fault),
        Settled::Late => RecordReply::Late,
    }
}
