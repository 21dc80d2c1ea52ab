// Where the lines of a play go: a sink takes them as bytes, a list keeps them as values, or they are dropped.
ghost use Rattle.std.specs.Prelude.{◌≡◌, ◌++◌, ◌∷◌, [], ℕ, IfErr, OnOk};
ghost use Rattle.output_lines.specs.declared.out_line.OutLine.{OutLine};
ghost use Rattle.text_commands.specs.Showing.{shown};
ghost use Rattle.text_commands.specs.Writing.{HasCause, IsWriteStop, Taken, Takes, TakesFront, dropped};
ghost use Rattle.text_commands.specs.Writing.{kept_as, written_as};

use crate::showing::{show_lines, went_well};
use crate::stop::Stop;
use hmr_base::Sink;
use output_lines::OutLine;
use std::alloc::{AllocError, Global};

/// What takes the lines of a play, step by step.
pub trait LineSink {
    /// What was taken so far.
    ghost taken: { Self → Taken };

    /// How often the output has failed.
    ghost faults: { Self → ℕ };

    /// Takes the lines of a step that are shown.
    ///
    /// `Unwritten` comes only where the count of faults rose in this call, and `NoMemory` where memory
    /// ran out. No other stop comes.
    fn show(&mut self, alloc: Global, quiet: bool, lines: Vec<OutLine>) -> Result<(), Stop>
        ensures done { OnOk result (Takes (taken self.old) (taken self.new) (shown quiet lines.items)) }
        ensures front { TakesFront (taken self.old) (taken self.new) (shown quiet lines.items) }
        ensures stops { IfErr result IsWriteStop }
        ensures faults { HasCause (faults self.old) (faults self.new) result };
}

impl<K: Sink> LineSink for K {
    ghost taken = { λ out. written_as (K.written out) };

    ghost faults = { λ out. K.faults out };

    fn show(&mut self, alloc: Global, quiet: bool, lines: Vec<OutLine>) -> Result<(), Stop> {
        show_lines(alloc, quiet, &lines, self)
    }
}

/// Lines that are kept as values.
#[derive(Drop)]
pub struct KeptLines {
    /// The lines so far.
    pub lines: Vec<OutLine>,
}

impl LineSink for KeptLines {
    ghost taken = { λ kept. kept_as kept.lines.items };

    ghost faults = { λ _. 0 };

    fn show(&mut self, _alloc: Global, quiet: bool, lines: Vec<OutLine>) -> Result<(), Stop> {
        keep_lines(&mut self.lines, quiet, lines)?;
        Ok(())
    }
}

/// Lines that are dropped.
#[derive(Drop)]
pub struct DroppedLines {}

impl LineSink for DroppedLines {
    ghost taken = { λ _. dropped };

    ghost faults = { λ _. 0 };

    fn show(&mut self, _alloc: Global, _quiet: bool, _lines: Vec<OutLine>) -> Result<(), Stop> {
        Ok(())
    }
}

/// Puts the lines that are shown behind those before.
fn keep_lines(kept: &mut Vec<OutLine>, quiet: bool, lines: Vec<OutLine>) -> Result<(), AllocError>
    ensures { OnOk result (kept.new.items ≡ kept.old.items ++ shown quiet lines.items) }
{
    for line in lines {
        keep_line(kept, quiet, line)?;
    }
    Ok(())
}

fn keep_line(kept: &mut Vec<OutLine>, quiet: bool, line: OutLine) -> Result<(), AllocError>
    ensures { OnOk result (kept.new.items ≡ kept.old.items ++ shown quiet (line ∷ [])) }
{
    if quiet && went_well(&line) {
        return Ok(());
    }
    kept.push(line)?;
    Ok(())
}
