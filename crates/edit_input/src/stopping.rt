// How a server ends that wasn't begun, since the input has no edits.
ghost use Rattle.std.specs.Prelude.{◌≡◌, List, Option, ℕ};
ghost use Rattle.std.specs.Io.KnownBytes.{Keeps};
ghost use Rattle.edit_input.specs.Inputs.{HasNoScript, IsNoScriptStatus, IsScriptStop};

use command_ends::{Limit, Status};
use hmr_base::{Sink, write_all};
use text_commands::Stop;

/// Writes the line of a stop before a server was begun, where it has one, and answers its status: 3 for a
/// fault of the script and 8 for a script that is too long, both with a line; 4 for an input that failed, and 9
/// for the others. A line that can't be written changes nothing of the status.
pub fn tell_stop<K: Sink>(stop: Stop, out: &mut K) -> u8
    ensures told { (left : Option (List ℕ)) → IsScriptStop left stop → HasNoScript left
        (K.written out.old) (K.written out.new) (K.faults out.old) (K.faults out.new) result }
    ensures known { IsNoScriptStatus result }
    ensures unread { result ≡ 4 → stop ≡ Stop.Unread }
    ensures unread_silent { result ≡ 4 → Keeps (K.written out.old) (K.written out.new) }
{
    match stop {
        Stop::Faulty(line) => {
            let _ = write_all(out, &line);
            Status::NoScript.number()
        }
        Stop::TooLong => {
            let _ = write_all(out, Limit::Script.line().as_bytes());
            Status::Limit.number()
        }
        Stop::Unread => Status::Unread.number(),
        _ => Status::NoMemory.number(),
    }
}
