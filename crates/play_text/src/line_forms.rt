// The forms of the lines, each put by one small function.
ghost use Rattle.std.specs.Prelude.{◌≡◌, ◌++◌, OnOk, decimal};
ghost use Rattle.output_lines.specs.declared.out_line.OutLine.TheVariants as lines;
ghost use Rattle.play_script.specs.Texts.{event_text, names_text, spaced};
ghost use Rattle.play_text.specs.Texts.{after_space, of_client};
ghost use Rattle.play_text.specs.Lines.{body_text};

use crate::outcomes::{
    put_abort, put_after_space, put_edit, put_eval_fault, put_fault_at, put_handled, put_instance,
    put_remove, put_result, put_slot,
};
use crate::pieces::{
    put, put_escaped, put_event, put_names, put_number, put_of, put_spaced, put_spaced_number,
};
use hmr_types::{
    ClientId, EvalFault, FaultWord, HandlerKind, ModName, Name, ReloadCause, Slot, Text, Ver,
};
use output_lines::{
    AbortWord, ClientState, EditWord, FaultPlace, Handled, HandlerEnd, InstanceFate,
    InstanceStatus, RemoveWord, SettleWord,
};
use std::alloc::AllocError;
use word_texts::{cause_str, end_str, kind_str, place_str, state_str};

/// Puts a word and a text.
pub fn put_worded(out: &mut Vec<u8>, word: &str, text: &str) -> Result<(), AllocError>
    ensures { OnOk result (out.new.items ≡ out.old.items ++ (word.now ++ text.now)) }
{
    put(out, word)?;
    put(out, text)
}

/// Puts a word and a number.
pub fn put_counted(out: &mut Vec<u8>, word: &str, number: u32) -> Result<(), AllocError>
    ensures { OnOk result (out.new.items ≡ out.old.items ++ (word.now ++ decimal number)) }
{
    put(out, word)?;
    put_number(out, u64::from(number))
}

/// Puts a word, and two texts with a space between them.
pub fn put_pair(out: &mut Vec<u8>, word: &str, first: &str, second: &str) -> Result<(), AllocError>
    ensures { OnOk result (out.new.items ≡ out.old.items ++ (word.now ++ first.now ++ spaced second.now)) }
{
    put(out, word)?;
    put(out, first)?;
    put_spaced(out, second)
}

/// Puts a word, and three texts with a space between each two.
pub fn put_triple(
    out: &mut Vec<u8>,
    word: &str,
    first: &str,
    second: &str,
    third: &str,
) -> Result<(), AllocError>
    ensures { OnOk result
        (out.new.items ≡ out.old.items ++ (word.now ++ first.now ++ spaced second.now ++ spaced third.now)) }
{
    put_pair(out, word, first, second)?;
    put_spaced(out, third)
}

/// Puts the number of a client, a word and a text.
pub fn put_of_text(out: &mut Vec<u8>, client: u32, word: &str, text: &str) -> Result<(), AllocError>
    ensures { OnOk result (out.new.items ≡ out.old.items ++ (of_client client word.now ++ text.now)) }
{
    put_of(out, client, word)?;
    put(out, text)
}

/// Puts the number of a client, a word, and names, each behind a space.
pub fn put_of_names(
    out: &mut Vec<u8>,
    client: u32,
    word: &str,
    names: &[ModName],
) -> Result<(), AllocError>
    ensures { OnOk result
        (out.new.items ≡ out.old.items ++ (of_client client word.now ++ names_text names.now)) }
{
    put_of(out, client, word)?;
    put_names(out, names)
}

/// Puts the number of a client, a word, a name, and a text on one line behind a space, where there is one.
pub fn put_of_message(
    out: &mut Vec<u8>,
    client: u32,
    word: &str,
    name: &ModName,
    text: &Text,
) -> Result<(), AllocError>
    ensures { OnOk result
        (out.new.items ≡ out.old.items ++ (of_client client word.now ++ name.now ++ after_space text.now)) }
{
    put_of_text(out, client, word, name.as_str())?;
    put_after_space(out, text)
}

/// Puts the line of a name and its version.
pub fn put_module(out: &mut Vec<u8>, name: &ModName, version: Ver) -> Result<(), AllocError>
    ensures { OnOk result (out.new.items ≡ out.old.items ++ body_text (lines.Module name.now version)) }
{
    put(out, name.as_str())?;
    put_spaced_number(out, version)
}

/// Puts the line of an edit.
pub fn put_edit_line(
    out: &mut Vec<u8>,
    name: &ModName,
    outcome: &EditWord,
) -> Result<(), AllocError>
    ensures { OnOk result (out.new.items ≡ out.old.items ++ body_text (lines.Edit name.now outcome.now)) }
{
    put_worded(out, "edit ", name.as_str())?;
    put(out, " ")?;
    put_edit(out, outcome)
}

/// Puts the line of a removal.
pub fn put_remove_line(
    out: &mut Vec<u8>,
    name: &ModName,
    outcome: &RemoveWord,
) -> Result<(), AllocError>
    ensures { OnOk result (out.new.items ≡ out.old.items ++ body_text (lines.Remove name.now outcome.now)) }
{
    put_worded(out, "remove ", name.as_str())?;
    put(out, " ")?;
    put_remove(out, outcome)
}

/// Puts the line of a result.
pub fn put_settle_line(
    out: &mut Vec<u8>,
    name: &ModName,
    version: Ver,
    outcome: &SettleWord,
) -> Result<(), AllocError>
    ensures { OnOk result
        (out.new.items ≡ out.old.items ++ body_text (lines.Settle name.now version outcome.now)) }
{
    put_worded(out, "settle ", name.as_str())?;
    put_spaced_number(out, version)?;
    put(out, " ")?;
    put_result(out, outcome)
}

/// Puts the line of a reload that is to come.
pub fn put_reload_line(
    out: &mut Vec<u8>,
    client: ClientId,
    cause: ReloadCause,
    path: &[ModName],
) -> Result<(), AllocError>
    ensures { OnOk result (out.new.items ≡ out.old.items ++ body_text (lines.Reload client cause path.now)) }
{
    put_of_text(out, client, " reload ", cause_str(cause))?;
    put_names(out, path)
}

/// Puts the line of a batch.
pub fn put_batch_line(
    out: &mut Vec<u8>,
    client: ClientId,
    batch: u64,
    triggered: &[ModName],
) -> Result<(), AllocError>
    ensures { OnOk result
        (out.new.items ≡ out.old.items ++ body_text (lines.Batch client batch triggered.now)) }
{
    put_of(out, client, " batch ")?;
    put_number(out, batch)?;
    put(out, " by")?;
    put_names(out, triggered)
}

/// Puts the line of an accepted pair.
pub fn put_accept_line(
    out: &mut Vec<u8>,
    client: ClientId,
    boundary: &ModName,
    via: &ModName,
) -> Result<(), AllocError>
    ensures { OnOk result
        (out.new.items ≡ out.old.items ++ body_text (lines.Accept client boundary.now via.now)) }
{
    put_of_text(out, client, " accept ", boundary.as_str())?;
    put_spaced(out, via.as_str())
}

/// Puts the line of a plan that was aborted.
pub fn put_aborted_line(
    out: &mut Vec<u8>,
    client: ClientId,
    outcome: &AbortWord,
) -> Result<(), AllocError>
    ensures { OnOk result (out.new.items ≡ out.old.items ++ body_text (lines.Aborted client outcome.now)) }
{
    put_of(out, client, " aborted ")?;
    put_abort(out, outcome)
}

/// Puts the line of a module text that was refused.
pub fn put_error_line(
    out: &mut Vec<u8>,
    client: ClientId,
    name: &ModName,
    line: u64,
    column: u64,
    word: FaultWord,
) -> Result<(), AllocError>
    ensures { OnOk result
        (out.new.items ≡ out.old.items ++ body_text (lines.Error client name.now line column word)) }
{
    put_of_text(out, client, " error ", name.as_str())?;
    put(out, " ")?;
    put_fault_at(out, line, column, word)
}

/// Puts the number of a client, a word and an event.
pub fn put_event_line(
    out: &mut Vec<u8>,
    client: ClientId,
    word: &str,
    event: &ModName,
) -> Result<(), AllocError>
    ensures { OnOk result (out.new.items ≡ out.old.items ++ (of_client client word.now ++ event_text event.now)) }
{
    put_of(out, client, word)?;
    put_event(out, event)
}

/// Puts the line of a body that went wrong.
pub fn put_fault_line(
    out: &mut Vec<u8>,
    client: ClientId,
    name: &ModName,
    place: FaultPlace,
    fault: &EvalFault,
) -> Result<(), AllocError>
    ensures { OnOk result
        (out.new.items ≡ out.old.items ++ body_text (lines.Fault client name.now place fault.now)) }
{
    put_of_text(out, client, " fault ", name.as_str())?;
    put_spaced(out, place_str(place))?;
    put(out, " ")?;
    put_eval_fault(out, fault)
}

/// Puts the line of a host closure that is missing.
pub fn put_nohost_line(
    out: &mut Vec<u8>,
    client: ClientId,
    name: &ModName,
    label: &Text,
) -> Result<(), AllocError>
    ensures { OnOk result
        (out.new.items ≡ out.old.items ++ body_text (lines.NoHost client name.now label.now)) }
{
    put_of_text(out, client, " nohost ", name.as_str())?;
    put(out, " ")?;
    put_escaped(out, label.as_str())
}

/// Puts the line of the state of a client.
pub fn put_client_line(
    out: &mut Vec<u8>,
    client: ClientId,
    state: ClientState,
) -> Result<(), AllocError>
    ensures { OnOk result (out.new.items ≡ out.old.items ++ body_text (lines.Client client state)) }
{
    put_counted(out, "client ", client)?;
    put_spaced(out, state_str(state))
}

/// Puts the line of the value of an export.
pub fn put_value_line(
    out: &mut Vec<u8>,
    name: &ModName,
    export: &Name,
    value: &Slot,
) -> Result<(), AllocError>
    ensures { OnOk result
        (out.new.items ≡ out.old.items ++ body_text (lines.Value name.now export.now value.now)) }
{
    put_pair(out, "value ", name.as_str(), export.as_str())?;
    put(out, " ")?;
    put_slot(out, value)
}

/// Puts the line of an instance.
pub fn put_instance_line(
    out: &mut Vec<u8>,
    number: u32,
    name: &ModName,
    version: Ver,
    status: InstanceStatus,
    fate: &InstanceFate,
) -> Result<(), AllocError>
    ensures { OnOk result
        (out.new.items
        ≡ out.old.items ++ body_text (lines.Instance number name.now version status fate.now)) }
{
    put(out, "instance ")?;
    put_instance(out, number, name, version, status, fate)
}

/// Puts the line of a handler.
pub fn put_handler_line(
    out: &mut Vec<u8>,
    kind: HandlerKind,
    handled: &Handled,
    end: HandlerEnd,
) -> Result<(), AllocError>
    ensures { OnOk result (out.new.items ≡ out.old.items ++ body_text (lines.Handler kind handled.now end)) }
{
    put(out, kind_str(kind))?;
    put(out, " ")?;
    put_handled(out, handled)?;
    put_spaced(out, end_str(end))
}
