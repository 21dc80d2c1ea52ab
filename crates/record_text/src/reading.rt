// Bytes as a record, line by line.
ghost use Rattle.std.specs.Prelude.{◌≡◌, ◌≤◌, [], length};
ghost use Rattle.play_script.specs.Script.{lines_from};
ghost use Rattle.record_text.specs.Lines.{Gives};
ghost use Rattle.record_text.specs.Reading.{IsReading, all_read, beginning, line_read, or_bad};
ghost use Rattle.record_text.specs.Reading.{record_of, whole};

use crate::draft::Draft;
use crate::record::Record;
use crate::refusal::{RecordFault, Refusal};
use crate::said::read_line;
use play_script::first_line;
use std::alloc::Global;

/// The record that bytes are. [`RecordFault::BadLine`] tells the first line that can't stand where it does,
/// from 1: it has no right form, another line is to come there, or no LF ends it; it is the line behind the
/// last one where the text ends before its first root or before the reply to its last event.
/// [`RecordFault::NoMemory`] comes where memory ran out. It goes over the bytes once, without recursion, and
/// the time and the memory are in proportion to them.
pub fn read_record(alloc: Global, text: &[u8]) -> Result<Record, RecordFault>
    ensures { IsReading result (record_of text.now) }
{
    let draft = read_lines(alloc, text)?;
    Ok(draft.into_record())
}

fn read_lines(alloc: Global, text: &[u8]) -> Result<Draft, RecordFault>
    ensures { IsReading result (all_read beginning 1 (lines_from [] text.now)) }
{
    let mut draft = Draft::new(alloc);
    let mut passed: u64 = 0;
    let mut left = text;
    while let Some(first) = first_line(left) {
        passed += 1;
        draft = read_numbered(alloc, draft, passed, first.bytes, first.ended)?;
        left = first.below;
    }
    if !draft.next.event {
        return Err(RecordFault::BadLine(passed + 1));
    }
    Ok(draft)
}

fn read_numbered(
    alloc: Global,
    draft: Draft,
    number: u64,
    line: &[u8],
    ended: bool,
) -> Result<Draft, RecordFault>
    ensures { IsReading result (or_bad number (line_read draft line.now ended)) }
{
    match read_placed(alloc, draft, line, ended) {
        Ok(draft) => Ok(draft),
        Err(refusal) => Err(refusal.at(number)),
    }
}

fn read_placed(alloc: Global, draft: Draft, line: &[u8], ended: bool) -> Result<Draft, Refusal>
    ensures { Gives (λ d. d) result (line_read draft line.now ended) }
{
    if !ended {
        return Err(Refusal::BadLine);
    }
    let said = read_line(alloc, line)?;
    draft.placed(said)
}
