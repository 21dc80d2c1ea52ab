// What is written of the record of a run.
ghost use Rattle.std.specs.Prelude.{◌≢◌, ◌≤◌, IfErr, IsErrOf, OnOk};
ghost use Rattle.hmr_base.specs.Causes.{Rose};
ghost use Rattle.hmr_base.specs.Fronts.{WritesFront};
ghost use Rattle.text_commands.specs.declared.stop.Stop.TheVariants.{Unread, Unwritten};
ghost use Rattle.text_commands.specs.Ends.{Finishes, StopsAt};
ghost use Rattle.text_commands.specs.Outputs.{Output, whole};
ghost use Rattle.text_commands.specs.Recorded.{Records};

use crate::stop::Stop;
use hmr_base::{Sink, write_all};

/// Writes the text of a record, if there is one; else it hands the stop on, and nothing is written.
///
/// What there is to write is whatever output the text is the whole of. `Unwritten` comes only where the
/// sink's count of faults rose in this call.
pub fn write_recorded<K: Sink>(recorded: Result<Vec<u8>, Stop>, out: &mut K) -> Result<(), Stop>
    ensures done { (o : Output) → Records o recorded
        → OnOk result (Finishes o (K.written out.old) (K.written out.new)) }
    ensures front { (o : Output) → Records o recorded
        → WritesFront (K.written out.old) (K.written out.new) (whole o) }
    ensures stops { (o : Output) → Records o recorded
        → IfErr result (λ stop. StopsAt o (K.written out.old) (K.written out.new) stop) }
    ensures words { (o : Output) → Records o recorded → IfErr result (λ stop. stop ≢ Stop.NotACommand) }
    ensures read { (o : Output) → Records o recorded → IfErr result (λ stop. stop ≢ Unread) }
    ensures unwritten { (o : Output) → Records o recorded
        → IsErrOf result Unwritten → Rose (K.faults out.old) (K.faults out.new) }
    ensures later { K.faults out.old ≤ K.faults out.new }
{
    match recorded {
        Ok(text) => {
            write_all(out, &text)?;
            Ok(())
        }
        Err(stop) => Err(stop),
    }
}
