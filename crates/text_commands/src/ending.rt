// The end of a command: the line that it writes last, and its exit status.
ghost use Rattle.std.specs.Prelude.{◌≡◌, ◌≤◌, Err};
ghost use Rattle.std.specs.Io.KnownBytes.{Appends};
ghost use Rattle.hmr_base.specs.Causes.{Rose};
ghost use Rattle.hmr_base.specs.Fronts.{WritesFront};
ghost use Rattle.command_ends.specs.Ends.{limit_line, number};
ghost use Rattle.text_commands.specs.Ends.{IsOwnStatus, IsSilent, last_of, status_of};

use crate::stop::Stop;
use command_ends::{Limit, Status};
use command_words::usage;
use hmr_base::{Sink, write_all};

/// Writes the line of an end, where it has one, and answers its exit status. Where the line can't be
/// written the status is the same.
pub fn tell_end<K: Sink>(ended: Result<(), Stop>, out: &mut K) -> Status
    ensures is { result ≡ status_of ended }
    ensures known { IsOwnStatus (number result) }
    ensures front { WritesFront (K.written out.old) (K.written out.new) (last_of ended) }
    ensures whole { ¬ Rose (K.faults out.old) (K.faults out.new)
        → Appends (K.written out.old) (K.written out.new) (last_of ended) }
    ensures silent { IsSilent ended → out.new ≡ out.old }
    ensures unwritten { number result ≡ 5 → ended ≡ Err Stop.Unwritten }
    ensures later { K.faults out.old ≤ K.faults out.new }
{
    match ended {
        Ok(()) => Status::Done,
        Err(Stop::NotACommand) => {
            let _ = write_all(out, usage().as_bytes());
            Status::NotACommand
        }
        Err(Stop::Faulty(line)) => {
            let _ = write_all(out, &line);
            Status::NoScript
        }
        Err(Stop::TooLong) => tell_limit(Limit::Script, out),
        Err(Stop::TextTooLong) => tell_limit(Limit::Text, out),
        Err(Stop::RecordTooLong) => tell_limit(Limit::Record, out),
        Err(Stop::TranscriptFull) => tell_limit(Limit::Transcript, out),
        Err(Stop::InstancesFull) => tell_limit(Limit::Instances, out),
        Err(Stop::Unread) => Status::Unread,
        Err(Stop::Unwritten) => Status::Unwritten,
        Err(Stop::NoMemory) => Status::NoMemory,
    }
}

/// Writes the line of a limit, and answers the exit status of limits.
fn tell_limit<K: Sink>(limit: Limit, out: &mut K) -> Status
    ensures is { result ≡ Status.Limit }
    ensures front { WritesFront (K.written out.old) (K.written out.new) (limit_line limit) }
    ensures whole { ¬ Rose (K.faults out.old) (K.faults out.new)
        → Appends (K.written out.old) (K.written out.new) (limit_line limit) }
    ensures later { K.faults out.old ≤ K.faults out.new }
{
    let _ = write_all(out, limit.line().as_bytes());
    Status::Limit
}
