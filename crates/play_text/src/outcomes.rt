// The parts of a line that have several forms: an outcome, a fault, a value, a fate.
ghost use Rattle.std.specs.Prelude.{◌≡◌, ◌++◌, OnOk};
ghost use Rattle.play_text.specs.Texts.{after_space};
ghost use Rattle.play_text.specs.Lines.{fault_at, text_fault, edit_text, remove_text};
ghost use Rattle.play_text.specs.Lines.{result_text, abort_text, eval_fault, slot_text};
ghost use Rattle.play_text.specs.Lines.{fate_text, instance_text, handled_text};

use crate::pieces::{
    put, put_escaped, put_number, put_quoted, put_signed, put_spaced, put_spaced_number,
};
use hmr_types::{EvalFault, FaultWord, ModName, Slot, Text, TextFault, Value, Ver};
use output_lines::{
    AbortWord, EditWord, Handled, InstanceFate, InstanceStatus, RemoveWord, SettleWord,
};
use std::alloc::AllocError;
use word_texts::{fault_str, refusal_str, status_str};

/// Puts what an instance is, and what became of it.
pub fn put_instance(
    out: &mut Vec<u8>,
    number: u32,
    name: &ModName,
    version: Ver,
    status: InstanceStatus,
    fate: &InstanceFate,
) -> Result<(), AllocError>
    ensures { OnOk result
        (out.new.items ≡ out.old.items ++ instance_text number name.now version status fate.now) }
{
    put_number(out, u64::from(number))?;
    put_spaced(out, name.as_str())?;
    put_spaced_number(out, version)?;
    put_spaced(out, status_str(status))?;
    put(out, " ")?;
    put_fate(out, fate)
}

/// Puts what an edit brought.
pub fn put_edit(out: &mut Vec<u8>, outcome: &EditWord) -> Result<(), AllocError>
    ensures { OnOk result (out.new.items ≡ out.old.items ++ edit_text outcome.now) }
{
    match outcome {
        EditWord::Job(version) => {
            put(out, "job ")?;
            put_number(out, *version)
        }
        EditWord::Same => put(out, "same"),
        EditWord::Refused(word) => {
            put(out, "refused ")?;
            put(out, refusal_str(*word))
        }
    }
}

/// Puts what a removal brought.
pub fn put_remove(out: &mut Vec<u8>, outcome: &RemoveWord) -> Result<(), AllocError>
    ensures { OnOk result (out.new.items ≡ out.old.items ++ remove_text outcome.now) }
{
    match outcome {
        RemoveWord::Removed(version) => put_number(out, *version),
        RemoveWord::Same => put(out, "same"),
        RemoveWord::NumbersSpent => put(out, "refused numbers-spent"),
    }
}

/// Puts what became of a result.
pub fn put_result(out: &mut Vec<u8>, outcome: &SettleWord) -> Result<(), AllocError>
    ensures { OnOk result (out.new.items ≡ out.old.items ++ result_text outcome.now) }
{
    match outcome {
        SettleWord::Served => put(out, "served"),
        SettleWord::Refused(fault) => {
            put(out, "refused ")?;
            put_text_fault(out, fault)
        }
        SettleWord::Late => put(out, "late"),
        SettleWord::NotIssued => put(out, "none"),
    }
}

/// Puts the place of a fault in a module text, and its word.
pub fn put_text_fault(out: &mut Vec<u8>, fault: &TextFault) -> Result<(), AllocError>
    ensures { OnOk result (out.new.items ≡ out.old.items ++ text_fault fault.now) }
{
    put_fault_at(out, u64::from(fault.line), u64::from(fault.col), fault.word)
}

/// Puts a line and a column, and the word of the fault there.
pub fn put_fault_at(
    out: &mut Vec<u8>,
    line: u64,
    column: u64,
    word: FaultWord,
) -> Result<(), AllocError>
    ensures { OnOk result (out.new.items ≡ out.old.items ++ fault_at line column word) }
{
    put_number(out, line)?;
    put(out, ":")?;
    put_number(out, column)?;
    put_spaced(out, fault_str(word))
}

/// Puts why a plan was aborted.
pub fn put_abort(out: &mut Vec<u8>, outcome: &AbortWord) -> Result<(), AllocError>
    ensures { OnOk result (out.new.items ≡ out.old.items ++ abort_text outcome.now) }
{
    match outcome {
        AbortWord::Missing(name) => {
            put(out, "missing ")?;
            put(out, name.as_str())
        }
        AbortWord::Broken(name) => {
            put(out, "broken ")?;
            put(out, name.as_str())
        }
        AbortWord::Link { name, from, export } => {
            put(out, "link ")?;
            put(out, name.as_str())?;
            put_spaced(out, from.as_str())?;
            put_spaced(out, export.as_str())
        }
    }
}

/// Puts a text behind a space, where there is one.
pub fn put_after_space(out: &mut Vec<u8>, text: &Text) -> Result<(), AllocError>
    ensures { OnOk result (out.new.items ≡ out.old.items ++ after_space text.now) }
{
    let text = text.as_str();
    if text.is_empty() {
        return Ok(());
    }
    put(out, " ")?;
    put_escaped(out, text)
}

/// Puts what went wrong while a body ran.
pub fn put_eval_fault(out: &mut Vec<u8>, fault: &EvalFault) -> Result<(), AllocError>
    ensures { OnOk result (out.new.items ≡ out.old.items ++ eval_fault fault.now) }
{
    match fault {
        EvalFault::Uninitialised(name) => {
            put(out, "uninitialised ")?;
            put(out, name.as_str())
        }
        EvalFault::NotNumber => put(out, "not-number"),
        EvalFault::Range => put(out, "range"),
        EvalFault::UndefinedRead => put(out, "undefined-read"),
        EvalFault::Thrown(text) => {
            put(out, "thrown ")?;
            put_escaped(out, text.as_str())
        }
        EvalFault::BagFull => put(out, "bag-full"),
    }
}

/// Puts the value of an export.
pub fn put_slot(out: &mut Vec<u8>, slot: &Slot) -> Result<(), AllocError>
    ensures { OnOk result (out.new.items ≡ out.old.items ++ slot_text slot.now) }
{
    match slot {
        Slot::Unset => put(out, "-"),
        Slot::Val(Value::Num(number)) => put_signed(out, *number),
        Slot::Val(Value::Str(text)) => put_quoted(out, text.as_str()),
        Slot::Val(Value::Undef) => put(out, "undefined"),
    }
}

/// Puts what became of an instance.
pub fn put_fate(out: &mut Vec<u8>, fate: &InstanceFate) -> Result<(), AllocError>
    ensures { OnOk result (out.new.items ≡ out.old.items ++ fate_text fate.now) }
{
    match fate {
        InstanceFate::Live => put(out, "live"),
        InstanceFate::Replaced(number) => {
            put(out, "replaced ")?;
            put_number(out, u64::from(*number))
        }
        InstanceFate::Pruned => put(out, "pruned"),
        InstanceFate::Reloaded => put(out, "reloaded"),
    }
}

/// Puts what a handler is.
pub fn put_handled(out: &mut Vec<u8>, handled: &Handled) -> Result<(), AllocError>
    ensures { OnOk result (out.new.items ≡ out.old.items ++ handled_text handled.now) }
{
    match handled {
        Handled::Code => put(out, "code"),
        Handled::Host { label, number } => {
            put(out, "host ")?;
            put_escaped(out, label.as_str())?;
            put_spaced_number(out, u64::from(*number))
        }
    }
}
