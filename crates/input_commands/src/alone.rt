// The commands that work on their input alone, from the words that were read to a status and an output.
ghost use Rattle.std.specs.Prelude.{◌≡◌, ◌≤◌, Err, None, IfErr, IfOk, IfSome, IsErrOf, OnOk, false, map};
ghost use Rattle.std.specs.Prelude.{string_bytes, true};
ghost use Rattle.std.specs.Io.KnownBytes.{IsAtEnd, Keeps};
ghost use Rattle.handler_table.specs.Shelf.{marks_of};
ghost use Rattle.hmr_base.specs.Causes.{Rose};
ghost use Rattle.hmr_base.specs.Fronts.{WritesFront};
ghost use Rattle.world_parts.specs.Shelves.{AreHosts};
ghost use Rattle.command_words.specs.Words.{Gives, HasRanges, command_of};
ghost use Rattle.text_commands.specs.declared.stop.Stop.TheVariants.{NotACommand, Unread, Unwritten};
ghost use Rattle.text_commands.specs.Ends.{EndsAtWords, Finishes, IsOwnStatus, StopsAt};
ghost use Rattle.text_commands.specs.Inputs.{WorksAlone, reads_input};
ghost use Rattle.text_commands.specs.Outputs.{whole};
ghost use Rattle.text_commands.specs.Runs.{AnswersWords, IsComplete, ReadsInput, WritesOutput};
ghost use Rattle.script_runs.specs.Outputs.{output_of};

use crate::make::make;
use crate::record::record;
use crate::script::play;
use audit_command::audit;
use command_words::{Command, WordsFault};
use handler_table::Shelf;
use hmr_base::{Sink, Source};
use retained_data::{Bag, Ran};
use std::alloc::{AllocError, Global};
use text_commands::{Stop, check, tell_end};
use world_parts::discard;

/// Carries out `play`, `check`, `make`, `record` or `audit`, for words that were read so, and writes the line
/// of what ended it before its end: of the words, of a fault, or of a limit. It answers the exit status; what
/// there is to write is the definition `output_of`.
///
/// 0: the whole output is written, and an input that is read was read to its end. 2: the words are no
/// command. 3: the input of `play` or `record` is no script. 4: the input failed, and nothing is written. 5:
/// the output failed. 8: the input, a text, a client's instances or the events to be recorded passed their
/// limit. 9: memory ran out. At 3, 5, 8 and 9 a prefix of the output is written. The closures of the shelves
/// go to the clients of a script, or are let go.
pub fn run_alone<F: FnOnce(Bag) -> Result<Ran, AllocError> + Drop, S: Source, K: Sink>(
    alloc: Global,
    words: &[String],
    read: Result<Command, WordsFault>,
    input: &mut S,
    out: &mut K,
    shelves: Vec<Shelf<F>>,
) -> u8
    requires callable { (f : F) → F.IsAlwaysCallable f }
    requires hosts { AreHosts F.post shelves.items }
    requires read { Gives read (command_of (map string_bytes words.now)) }
    requires ranges { IfOk read HasRanges }
    requires alone { IfOk read WorksAlone }
    ensures known { IsOwnStatus result }
    ensures out_of_memory { read ≡ Err WordsFault.NoMemory → (result ≡ 9) × (out.new ≡ out.old) }
    ensures words { AnswersWords (command_of (map string_bytes words.now))
        (K.written out.old) (K.written out.new) (K.faults out.old) (K.faults out.new) result }
    ensures output { WritesOutput
        (output_of (map marks_of shelves.items) (map string_bytes words.now) (S.left input.old))
        (K.written out.old) (K.written out.new) (K.faults out.old) (K.faults out.new) result }
    ensures complete { IsComplete
        (output_of (map marks_of shelves.items) (map string_bytes words.now) (S.left input.old)) result }
    ensures input { ReadsInput (command_of (map string_bytes words.now)) (S.left input.new)
        (S.faults input.old) (S.faults input.new) (K.written out.old) (K.written out.new) result }
    ensures untouched { reads_input (command_of (map string_bytes words.now)) ≡ false
        → input.new ≡ input.old }
    ensures unwritten { result ≡ 5 → Rose (K.faults out.old) (K.faults out.new) }
{
    let ended = carry_out(alloc, words, read, input, out, shelves);
    tell_end(ended, out).number()
}

/// Carries out the command that the words are.
fn carry_out<F: FnOnce(Bag) -> Result<Ran, AllocError> + Drop, S: Source, K: Sink>(
    alloc: Global,
    words: &[String],
    read: Result<Command, WordsFault>,
    input: &mut S,
    out: &mut K,
    shelves: Vec<Shelf<F>>,
) -> Result<(), Stop>
    requires callable { (f : F) → F.IsAlwaysCallable f }
    requires hosts { AreHosts F.post shelves.items }
    requires read { Gives read (command_of (map string_bytes words.now)) }
    requires ranges { IfOk read HasRanges }
    requires alone { IfOk read WorksAlone }
    ensures out_of_memory { read ≡ Err WordsFault.NoMemory
        → (result ≡ Err Stop.NoMemory) × (out.new ≡ out.old) }
    ensures words { IsErrOf result NotACommand → command_of (map string_bytes words.now) ≡ None }
    ensures no_command { command_of (map string_bytes words.now) ≡ None → EndsAtWords result }
    ensures silent { IsErrOf result NotACommand → out.new ≡ out.old }
    ensures done { OnOk result
        (IfSome (output_of (map marks_of shelves.items) (map string_bytes words.now) (S.left input.old))
        (λ output. Finishes output (K.written out.old) (K.written out.new))) }
    ensures end { OnOk result (reads_input (command_of (map string_bytes words.now)) ≡ true
        → IsAtEnd (S.left input.new)) }
    ensures front { IfSome (output_of (map marks_of shelves.items) (map string_bytes words.now)
        (S.left input.old)) (λ output. WritesFront (K.written out.old) (K.written out.new) (whole output)) }
    ensures stops { IfErr result (λ stop.
        IfSome (output_of (map marks_of shelves.items) (map string_bytes words.now) (S.left input.old))
        (λ output. StopsAt output (K.written out.old) (K.written out.new) stop)) }
    ensures unread { IsErrOf result Unread → Rose (S.faults input.old) (S.faults input.new) }
    ensures unread_silent { IsErrOf result Unread → Keeps (K.written out.old) (K.written out.new) }
    ensures unread_reads { IsErrOf result Unread
        → reads_input (command_of (map string_bytes words.now)) ≡ true }
    ensures unwritten { IsErrOf result Unwritten → Rose (K.faults out.old) (K.faults out.new) }
    ensures untouched { reads_input (command_of (map string_bytes words.now)) ≡ false
        → input.new ≡ input.old }
    ensures later { K.faults out.old ≤ K.faults out.new }
{
    let _of = words;
    match read {
        Ok(Command::Play) => play(alloc, input, out, shelves),
        Ok(Command::Check(name)) => {
            discard(shelves);
            check(alloc, &name, input, out)
        }
        Ok(Command::Record) => record(alloc, input, out, shelves),
        Ok(Command::Audit) => {
            discard(shelves);
            audit(alloc, input, out)
        }
        Ok(Command::Make { count, seed }) => make(alloc, count, seed, out, shelves),
        Ok(Command::Serve(_) | Command::Join { .. } | Command::Page(_)) => unreachable!(),
        Err(fault) => {
            discard(shelves);
            Err(Stop::from(fault))
        }
    }
}
