// The command `audit`: a record is read from the input, and the verdict on it is written.
ghost use Rattle.std.specs.Prelude.{◌≡◌, ◌≢◌, ◌≤◌, IfErr, IfOk, IfSome, IsErrOf, OnOk};
ghost use Rattle.std.specs.Io.KnownBytes.{IsAtEnd, Keeps};
ghost use Rattle.hmr_base.specs.Causes.{Rose};
ghost use Rattle.hmr_base.specs.Fronts.{WritesFront};
ghost use Rattle.record_laws.specs.Course.{verdict_of};
ghost use Rattle.text_commands.specs.declared.stop.Stop.TheVariants.{Unread, Unwritten};
ghost use Rattle.text_commands.specs.Auditing.{verdict_line, why_word};
ghost use Rattle.text_commands.specs.Ends.{Finishes, StopsAt, stop_of_record};
ghost use Rattle.text_commands.specs.Outputs.{output_of_audit, whole};

use command_ends::RECORD_BYTES;
use hmr_base::{ReadFault, Sink, Source, read_all, write_all};
use record_laws::{Verdict, Why};
use std::alloc::{AllocError, Global};
use text_commands::Stop;

/// Reads a record, and writes the verdict on it. What there is to write for an input is the definition
/// `output_of_audit`. Beside the record it takes what a core takes that is told its events.
///
/// `RecordTooLong` comes where the input has more than 268,435,456 bytes, `Unread` and `Unwritten` only where
/// the count of faults of the input or the output rose, and `NoMemory` where memory ran out. No other stop
/// comes.
pub fn audit<S: Source, K: Sink>(alloc: Global, input: &mut S, out: &mut K) -> Result<(), Stop>
    ensures done { OnOk result (IfSome (S.left input.old) (λ bytes.
        Finishes (output_of_audit bytes) (K.written out.old) (K.written out.new))) }
    ensures end { OnOk result (IsAtEnd (S.left input.new)) }
    ensures front { IfSome (S.left input.old) (λ bytes.
        WritesFront (K.written out.old) (K.written out.new) (whole (output_of_audit bytes))) }
    ensures stops { IfErr result (λ stop. IfSome (S.left input.old) (λ bytes.
        StopsAt (output_of_audit bytes) (K.written out.old) (K.written out.new) stop)) }
    ensures words { IfErr result (λ stop. stop ≢ Stop.NotACommand) }
    ensures unread { IsErrOf result Unread → Rose (S.faults input.old) (S.faults input.new) }
    ensures unread_silent { IsErrOf result Unread → Keeps (K.written out.old) (K.written out.new) }
    ensures unwritten { IsErrOf result Unwritten → Rose (K.faults out.old) (K.faults out.new) }
    ensures later { K.faults out.old ≤ K.faults out.new }
{
    match read_all(alloc, input, RECORD_BYTES) {
        Ok(bytes) => {
            let line = verdict_on(alloc, &bytes)?;
            write_all(out, &line)?;
            Ok(())
        }
        Err(fault) => Err(stop_of_record(fault)),
    }
}

/// The line of the verdict on these bytes.
fn verdict_on(alloc: Global, bytes: &[u8]) -> Result<Vec<u8>, AllocError>
    ensures { IfOk result (λ line. line.items ≡ verdict_line (verdict_of bytes.now)) }
{
    let verdict = transcript_check::audit(alloc, bytes)?;
    verdict_line(alloc, verdict)
}

/// The line of a verdict.
fn verdict_line(alloc: Global, verdict: Verdict) -> Result<Vec<u8>, AllocError>
    ensures { IfOk result (λ line. line.items ≡ verdict_line verdict) }
{
    match verdict {
        Verdict::Yes { steps, rests } => yes_line(alloc, steps, rests),
        Verdict::No { line, why } => no_line(alloc, line, why),
    }
}

fn yes_line(alloc: Global, steps: u64, rests: u64) -> Result<Vec<u8>, AllocError>
    ensures { IfOk result (λ line. line.items ≡ verdict_line (Verdict.Yes steps rests)) }
{
    let line = format!(in alloc; "yes steps {steps} rests {rests}\n")?;
    Ok(line.into_bytes())
}

fn no_line(alloc: Global, number: u64, why: Why) -> Result<Vec<u8>, AllocError>
    ensures { IfOk result (λ line. line.items ≡ verdict_line (Verdict.No number why)) }
{
    let word = why_word(why);
    let line = format!(in alloc; "no line {number} {word}\n")?;
    Ok(line.into_bytes())
}

/// The word for what is wrong with a line.
fn why_word(why: Why) -> &'static str
    ensures { result.now ≡ why_word why }
{
    match why {
        Why::BadLine => "bad-line",
        Why::Roots => "roots",
        Why::Reply => "reply",
        Why::Rest => "rest",
        Why::Limit => "limit",
    }
}

/// The stop for a record that wasn't read.
fn stop_of_record(fault: ReadFault) -> Stop
    ensures { result ≡ stop_of_record fault }
{
    match fault {
        ReadFault::Failed => Stop::Unread,
        ReadFault::TooLong => Stop::RecordTooLong,
        ReadFault::NoMemory => Stop::NoMemory,
    }
}
