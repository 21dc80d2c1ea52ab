// The lines of an answer, written at once.
ghost use Rattle.std.specs.Prelude.{◌≡◌, ◌≤◌, ◌++◌, Err, IfErr, IfOk, OnOk};
ghost use Rattle.std.specs.Io.KnownBytes.{Appends};
ghost use Rattle.hmr_base.specs.Causes.{Rose};
ghost use Rattle.hmr_base.specs.Fronts.{WritesFront};
ghost use Rattle.join_command.specs.Joining.{IsWriteStop, lines_text};

use crate::stop::JoinStop;
use hmr_base::{Sink, write_all};
use output_lines::OutLine;
use play_text::put_line;
use std::alloc::{AllocError, Global};

/// Writes lines, by one call of `write_all`.
///
/// `Unwritten` comes only where the sink's count of faults rose in this call, and `NoMemory` where memory
/// ran out, before anything was written. No other stop comes.
pub(crate) fn write_lines<K: Sink>(
    alloc: Global,
    lines: &[OutLine],
    out: &mut K,
) -> Result<(), JoinStop>
    ensures done { OnOk result (Appends (K.written out.old) (K.written out.new) (lines_text lines.now)) }
    ensures front { WritesFront (K.written out.old) (K.written out.new) (lines_text lines.now) }
    ensures stops { IfErr result IsWriteStop }
    ensures later { K.faults out.old ≤ K.faults out.new }
    ensures failed { result ≡ Err JoinStop.Unwritten → Rose (K.faults out.old) (K.faults out.new) }
{
    let text = text_of(alloc, lines)?;
    write_all(out, &text)?;
    Ok(())
}

fn text_of(alloc: Global, lines: &[OutLine]) -> Result<Vec<u8>, AllocError>
    ensures { IfOk result (λ text. text.items ≡ lines_text lines.now) }
{
    let mut text = Vec::new(alloc);
    for line in lines {
        put_line(&mut text, line)?;
    }
    Ok(text)
}
