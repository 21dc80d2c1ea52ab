// The lines of a step: those that are shown, written at once.
ghost use Rattle.std.specs.Prelude.{◌≡◌, ◌++◌, ◌∷◌, [], IfErr, IfOk, OnOk};
ghost use Rattle.std.specs.Io.KnownBytes.{Appends};
ghost use Rattle.hmr_base.specs.Fronts.{WritesFront};
ghost use Rattle.world_model.specs.Playing.{went_well};
ghost use Rattle.text_commands.specs.Outputs.{lines_text};
ghost use Rattle.text_commands.specs.Showing.{shown};
ghost use Rattle.text_commands.specs.Writing.{HasCause, IsWriteStop};

use crate::stop::Stop;
use hmr_base::{Sink, write_all};
use output_lines::{EditWord, OutLine, RemoveWord, SettleWord};
use play_text::put_line;
use std::alloc::{AllocError, Global};

/// Writes the lines that are shown, by one call of `write_all`.
///
/// `Unwritten` comes only where the sink's count of faults rose in this call, and `NoMemory` where memory
/// ran out, before anything was written. No other stop comes.
pub fn show_lines<K: Sink>(
    alloc: Global,
    quiet: bool,
    lines: &[OutLine],
    out: &mut K,
) -> Result<(), Stop>
    ensures done { OnOk result
        (Appends (K.written out.old) (K.written out.new) (lines_text (shown quiet lines.now))) }
    ensures front { WritesFront (K.written out.old) (K.written out.new)
        (lines_text (shown quiet lines.now)) }
    ensures stops { IfErr result IsWriteStop }
    ensures faults { HasCause (K.faults out.old) (K.faults out.new) result }
{
    let text = shown_text(alloc, quiet, lines)?;
    write_all(out, &text)?;
    Ok(())
}

fn shown_text(alloc: Global, quiet: bool, lines: &[OutLine]) -> Result<Vec<u8>, AllocError>
    ensures { IfOk result (λ text. text.items ≡ lines_text (shown quiet lines.now)) }
{
    let mut text = Vec::new(alloc);
    for line in lines {
        put_shown(&mut text, quiet, line)?;
    }
    Ok(text)
}

fn put_shown(text: &mut Vec<u8>, quiet: bool, line: &OutLine) -> Result<(), AllocError>
    ensures { OnOk result (text.new.items ≡ text.old.items ++ lines_text (shown quiet (line.now ∷ []))) }
{
    if quiet && went_well(line) {
        return Ok(());
    }
    put_line(text, line)
}

/// Whether the line is that of an edit, a result or an opening that went well.
pub fn went_well(line: &OutLine) -> bool
    ensures { result ≡ went_well line.now }
{
    match line {
        OutLine::Edit { name: _, outcome } => matches!(outcome, EditWord::Job(_)),
        OutLine::Remove { name: _, outcome } => matches!(outcome, RemoveWord::Removed(_)),
        OutLine::Settle {
            name: _,
            version: _,
            outcome,
        } => matches!(outcome, SettleWord::Served),
        OutLine::Open { client: _ } => true,
        _ => false,
    }
}
