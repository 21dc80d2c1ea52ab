// What a terminal shows of a fault of a text.
ghost use Rattle.std.specs.Prelude.{◌≡◌, ◌++◌, OnOk};
ghost use Rattle.std.specs.List.{flat_map};
ghost use Rattle.live_lines.specs.FaultLines.{before_caret, blank_below};
ghost use Rattle.live_lines.specs.Lines.{fault_text, lines_below, place_text};

use crate::Style;
use crate::pieces::{put, put_counted, put_off, put_on, put_shown};
use hmr_types::{ModName, Text, TextFault};
use std::alloc::AllocError;
use word_texts::fault_str;

/// Puts the place and the word of a fault, and where it has a place and a line the line with a caret below it.
pub(crate) fn put_fault(
    out: &mut Vec<u8>,
    style: Style,
    name: &ModName,
    fault: &TextFault,
    line_text: &Text,
) -> Result<(), AllocError>
    ensures { OnOk result
        (out.new.items ≡ out.old.items ++ fault_text style name.now fault.now line_text.now) }
{
    put_on(out, style, "31")?;
    put(out, name.as_str())?;
    put_place(out, fault.line, fault.col)?;
    put(out, " ")?;
    put(out, fault_str(fault.word))?;
    put_off(out, style)?;
    put_lines_below(out, fault.col, line_text.as_str())
}

// Puts the line and the column, where there are any.
fn put_place(out: &mut Vec<u8>, line: u32, column: u32) -> Result<(), AllocError>
    ensures { OnOk result (out.new.items ≡ out.old.items ++ place_text line column) }
{
    if line == 0 {
        return Ok(());
    }
    put_counted(out, ":", u64::from(line), "")?;
    put_counted(out, ":", u64::from(column), "")
}

// Puts the line of the text and the caret, where there is a line.
fn put_lines_below(out: &mut Vec<u8>, column: u32, line: &str) -> Result<(), AllocError>
    ensures { OnOk result (out.new.items ≡ out.old.items ++ lines_below column line.now) }
{
    if line.is_empty() || column == 0 {
        return Ok(());
    }
    put(out, "\n         ")?;
    put_shown(out, line)?;
    put(out, "\n         ")?;
    put_before_caret(out, line.as_bytes(), column)?;
    put(out, "^")
}

// Puts what stands before the caret.
fn put_before_caret(out: &mut Vec<u8>, line: &[u8], column: u32) -> Result<(), AllocError>
    ensures { OnOk result (out.new.items ≡ out.old.items ++ before_caret line.now column) }
{
    let count = column.saturating_sub(1) as usize;
    let before = &line[..line.len().min(count)];
    put_blanks(out, before)
}

fn put_blanks(out: &mut Vec<u8>, before: &[u8]) -> Result<(), AllocError>
    ensures { OnOk result (out.new.items ≡ out.old.items ++ flat_map blank_below before.now) }
{
    for byte in before {
        put_blank_below(out, *byte)?;
    }
    Ok(())
}

fn put_blank_below(out: &mut Vec<u8>, byte: u8) -> Result<(), AllocError>
    ensures { OnOk result (out.new.items ≡ out.old.items ++ blank_below byte) }
{
    if byte == 9 {
        out.push(9)?;
    } else if !(128 <= byte && byte < 192) {
        out.push(32)?;
    }
    Ok(())
}
