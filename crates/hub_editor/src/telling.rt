// What the editor tells the hub: an edit, and the result of a job.
ghost use Rattle.std.specs.Prelude.{◌≡◌, ◌≢◌, ◌+◌, ◌≤◌, [], IfErr, IfOk, OnErr, OnOk, length};
ghost use Rattle.hmr_types.specs.declared.limits.TheConstants.{MESSAGE_BYTES};
ghost use Rattle.hmr_types.specs.declared.words.EditRefusal.TheVariants.{NumbersSpent, SourceTotal};
ghost use Rattle.hmr_types.specs.declared.words.EditRefusal.TheVariants.{TextTooLong, TooManyNames};
ghost use Rattle.core_model.specs.Formed.{IsVersion};
ghost use Rattle.transform_pool.specs.Results.{result_of};
ghost use Rattle.hmr_hub.specs.Calls.{SameKnower};
ghost use Rattle.hmr_hub.specs.Passes.{HasTranscript, IsPassOf, number_of};
ghost use Rattle.hub_editor.specs.Causes.{IsCause, IsRoomStop, IsStopFor};
ghost use Rattle.hub_editor.specs.Edits.{IsEditReply, IsGiven, edit_of, length_of, reply_of, text_in};
ghost use Rattle.hub_editor.specs.Editing.{Settled, Told, Went};
ghost use Rattle.hub_editor.specs.declared.worked.Worked.TheVariants.{No};

use crate::stop::EditStop;
use crate::work::Work;
use events_and_replies::{Event, Reply, copy_text};
use hmr_hub::{Hub, Pass};
use hmr_types::{EditRefusal, ModName, Ver};
use std::alloc::Global;
use std::sync::Wait;
use transform_pool::TextJob;
use transforms::Transformed;
use version_map::EditOutcome;

// Tells an edit, and gives it with what was answered.
pub(crate) fn told_work<R: Wait>(
    rt: &R,
    alloc: Global,
    hub: &Hub,
    pass: &mut Pass,
    name: ModName,
    text: Option<Vec<u8>>,
) -> Result<Work, EditStop>
    requires of { IsPassOf hub.now pass.old }
    requires number { number_of pass.old ≡ 0 }
    requires short { length_of (name, text_in text) ≤ MESSAGE_BYTES }
    ensures of { IsPassOf hub.now pass.new }
    ensures same { SameKnower pass.old pass.new }
    ensures transcript { HasTranscript pass.old → HasTranscript pass.new }
    ensures told { IfOk result (λ work. Told (edit_of work) work.answer pass.old pass.new) }
    ensures edit { IfOk result (λ work. edit_of work ≡ (name, text_in text)) }
    ensures unworked { IfOk result (λ work. work.worked ≡ No) }
    ensures untold { OnErr result (Went pass.old pass.new []) }
    ensures room { IfErr result IsRoomStop }
    ensures cause { IfErr result (IsCause pass.new) }
{
    let own_name = name.clone()?;
    let own_text = copy_text(alloc, &text)?;
    let answer = tell_edit(rt, hub, pass, name, text)?;
    Ok(Work::new(own_name, own_text, answer))
}

// Tells an edit, and gives what is answered.
pub(crate) fn tell_edit<R: Wait>(
    rt: &R,
    hub: &Hub,
    pass: &mut Pass,
    name: ModName,
    text: Option<Vec<u8>>,
) -> Result<Result<EditOutcome, EditRefusal>, EditStop>
    requires of { IsPassOf hub.now pass.old }
    requires number { number_of pass.old ≡ 0 }
    requires short { length_of (name, text_in text) ≤ MESSAGE_BYTES }
    ensures of { IsPassOf hub.now pass.new }
    ensures same { SameKnower pass.old pass.new }
    ensures transcript { HasTranscript pass.new }
    ensures told { IfOk result (λ answer. Told (name, text_in text) answer pass.old pass.new) }
    ensures given { IfOk result IsGiven }
    ensures untold { OnErr result (Went pass.old pass.new []) }
    ensures room { IfErr result IsRoomStop }
    ensures cause { IfErr result (IsCause pass.new) }
{
    let reply = hub.call(rt, pass, Event::Edit(name, text))?;
    Ok(answer_in(reply))
}

// The answer in a reply to an edit.
fn answer_in(reply: Reply) -> Result<EditOutcome, EditRefusal>
    requires { IsEditReply reply }
    ensures is { reply_of result ≡ reply }
    ensures given { IsGiven result }
{
    match reply {
        Reply::Edited(outcome) => Ok(outcome),
        Reply::EditRefused(refusal) => Err(refusal),
        Reply::Settled(_) | Reply::To(_) | Reply::Refused(_) | Reply::Gone => unreachable!(),
    }
}

// The editor stops by a refusal of an edit. A transcript is too short for all numbers to be given.
pub(crate) fn stop_by(refusal: EditRefusal) -> EditStop
    requires { refusal ≢ NumbersSpent }
    ensures text { refusal ≡ TextTooLong → result ≡ EditStop.Text }
    ensures names { refusal ≡ TooManyNames → result ≡ EditStop.Names }
    ensures sources { refusal ≡ SourceTotal → result ≡ EditStop.Sources }
    ensures is { IsStopFor refusal result }
{
    match refusal {
        EditRefusal::TextTooLong => EditStop::Text,
        EditRefusal::TooManyNames => EditStop::Names,
        EditRefusal::SourceTotal => EditStop::Sources,
        EditRefusal::NumbersSpent => unreachable!(),
    }
}

// Works a job, and tells its result.
pub(crate) fn settle<R: Wait>(
    rt: &R,
    alloc: Global,
    hub: &Hub,
    pass: &mut Pass,
    job: TextJob,
) -> Result<(), EditStop>
    requires of { IsPassOf hub.now pass.old }
    requires number { number_of pass.old ≡ 0 }
    requires version { IsVersion job.ver }
    ensures of { IsPassOf hub.now pass.new }
    ensures same { SameKnower pass.old pass.new }
    ensures transcript { HasTranscript pass.old → HasTranscript pass.new }
    ensures settled { OnOk result (Settled job pass.old pass.new) }
    ensures unsettled { OnErr result (Went pass.old pass.new []) }
    ensures room { IfErr result IsRoomStop }
    ensures cause { IfErr result (IsCause pass.new) }
{
    let ver = job.ver();
    let done = job.transformed(alloc)?;
    tell_result(rt, hub, pass, done, ver)
}

// Tells the result of a job.
pub(crate) fn tell_result<R: Wait>(
    rt: &R,
    hub: &Hub,
    pass: &mut Pass,
    done: Transformed,
    ver: Ver,
) -> Result<(), EditStop>
    requires of { IsPassOf hub.now pass.old }
    requires number { number_of pass.old ≡ 0 }
    requires version { IsVersion ver }
    requires short { length done.name + length done.text ≤ MESSAGE_BYTES }
    ensures of { IsPassOf hub.now pass.new }
    ensures same { SameKnower pass.old pass.new }
    ensures transcript { HasTranscript pass.new }
    ensures settled { OnOk result
        (Settled (record { name = done.name; text = done.text; ver = ver }) pass.old pass.new) }
    ensures unsettled { OnErr result (Went pass.old pass.new []) }
    ensures room { IfErr result IsRoomStop }
    ensures cause { IfErr result (IsCause pass.new) }
{
    hub.call(rt, pass, Event::Settle(done, ver))?;
    Ok(())
}
