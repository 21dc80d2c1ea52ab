// A whole text to a sink. The sink takes prefix after prefix until nothing is left, or fails.
ghost use Rattle.std.specs.Prelude.{◌≡◌, ◌<◌, ◌≤◌, take, length, OnOk, OnErr, IfErr};
ghost use Rattle.std.specs.Io.KnownBytes.{Appends};
ghost use Rattle.hmr_base.specs.Causes.{Rose};
ghost use Rattle.hmr_base.specs.Fronts.{WritesFront};

use crate::Sink;

/// The sink failed before the whole text was written.
#[derive(Clone, Copy, Debug, PartialEq, Eq)]
pub struct WriteFault {
    /// How many bytes of the text went out before.
    pub written: usize,
}

/// Writes the whole text.
///
/// `WriteFault` comes only where the sink's count of faults rose in this call; exactly the first
/// `written` bytes of the text went out.
pub fn write_all<K: Sink>(sink: &mut K, text: &[u8]) -> Result<(), WriteFault>
    ensures done { OnOk result (Appends (K.written sink.old) (K.written sink.new) text.now) }
    ensures stopped { IfErr result
        (λ fault. Appends (K.written sink.old) (K.written sink.new) (take fault.written text.now)) }
    ensures front { WritesFront (K.written sink.old) (K.written sink.new) text.now }
    ensures bound { IfErr result (λ fault. fault.written ≤ length text.now) }
    ensures failed { OnErr result (Rose (K.faults sink.old) (K.faults sink.new)) }
    ensures later { K.faults sink.old ≤ K.faults sink.new }
    ensures same { OnOk result (K.faults sink.new ≡ K.faults sink.old) }
{
    let mut at = 0;
    while at < text.len() {
        match sink.write(&text[at..]) {
            Ok(count) => at += count,
            Err(_) => return Err(WriteFault { written: at }),
        }
    }
    Ok(())
}
