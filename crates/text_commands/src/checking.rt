// The command `check`: a module text is read from the input, and its report is written.
ghost use Rattle.std.specs.Prelude.{◌≡◌, ◌≢◌, ◌≤◌, IfErr, IfSome, IsErrOf, OnOk};
ghost use Rattle.std.specs.Io.KnownBytes.{IsAtEnd, Keeps};
ghost use Rattle.hmr_base.specs.Causes.{Rose};
ghost use Rattle.hmr_base.specs.Fronts.{WritesFront};
ghost use Rattle.text_commands.specs.declared.stop.Stop.TheVariants.{Unread, Unwritten};
ghost use Rattle.text_commands.specs.Ends.{Finishes, StopsAt, stop_of_text};
ghost use Rattle.text_commands.specs.Outputs.{output_of_check, whole};

use crate::stop::Stop;
use crate::text_report::report_of;
use hmr_base::{ReadFault, Sink, Source, read_all, write_all};
use hmr_types::ModName;
use hmr_types::limits::TEXT_BYTES;
use std::alloc::Global;

/// Reads a module text as that of the module `name`, and writes the report of its check. What there is to
/// write for an input is the definition `output_of_check`.
///
/// `TextTooLong` comes where the input has more than 131,072 bytes, `Unread` and `Unwritten` only where the
/// count of faults of the input or the output rose, and `NoMemory` where memory ran out. No other stop
/// comes.
pub fn check<S: Source, K: Sink>(
    alloc: Global,
    name: &ModName,
    input: &mut S,
    out: &mut K,
) -> Result<(), Stop>
    ensures done { OnOk result (IfSome (S.left input.old) (λ bytes.
        Finishes (output_of_check name.now bytes) (K.written out.old) (K.written out.new))) }
    ensures end { OnOk result (IsAtEnd (S.left input.new)) }
    ensures front { IfSome (S.left input.old) (λ bytes.
        WritesFront (K.written out.old) (K.written out.new) (whole (output_of_check name.now bytes))) }
    ensures stops { IfErr result (λ stop. IfSome (S.left input.old) (λ bytes.
        StopsAt (output_of_check name.now bytes) (K.written out.old) (K.written out.new) stop)) }
    ensures words { IfErr result (λ stop. stop ≢ Stop.NotACommand) }
    ensures unread { IsErrOf result Unread → Rose (S.faults input.old) (S.faults input.new) }
    ensures unread_silent { IsErrOf result Unread → Keeps (K.written out.old) (K.written out.new) }
    ensures unwritten { IsErrOf result Unwritten → Rose (K.faults out.old) (K.faults out.new) }
    ensures later { K.faults out.old ≤ K.faults out.new }
{
    match read_all(alloc, input, TEXT_BYTES) {
        Ok(text) => {
            let report = report_of(alloc, name, &text)?;
            write_all(out, &report)?;
            Ok(())
        }
        Err(fault) => Err(stop_of_text(fault)),
    }
}

/// The stop for a module text that wasn't read.
fn stop_of_text(fault: ReadFault) -> Stop
    ensures { result ≡ stop_of_text fault }
{
    match fault {
        ReadFault::Failed => Stop::Unread,
        ReadFault::TooLong => Stop::TextTooLong,
        ReadFault::NoMemory => Stop::NoMemory,
    }
}
