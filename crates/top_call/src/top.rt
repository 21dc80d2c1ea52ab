// The top call: words, an input, a folder and a net to a status and an output.
ghost use Rattle.std.specs.Prelude.{◌≡◌, ◌⊎◌, ◌+◌, ◌∷◌, [], None, map, IfSome, false, string_bytes, true};
ghost use Rattle.std.specs.Io.KnownBytes.{Keeps};
ghost use Rattle.handler_table.specs.Shelf.{marks_of};
ghost use Rattle.hmr_base.specs.Causes.{Rose};
ghost use Rattle.world_parts.specs.Shelves.{AreHosts};
ghost use Rattle.play_script.specs.Script.{script_of};
ghost use Rattle.command_words.specs.Words.{command_of};
ghost use Rattle.jobs.specs.Begun.{none_begun};
ghost use Rattle.script_runs.specs.Headline.{ShowsAreFresh};
ghost use Rattle.text_commands.specs.Inputs.{is_page, reads_input};
ghost use Rattle.script_runs.specs.Outputs.{output_of};
ghost use Rattle.text_commands.specs.Runs.{AnswersWords, IsComplete, ReadsInput, WritesOutput};
ghost use Rattle.top_call.specs.Outside.{HasServed, IfJoin, IfServe, IsJoined, IsStatus, MayAsk};
ghost use Rattle.top_call.specs.Outside.{MayHaveOpened, is_join, opening_of};
ghost use Rattle.top_call.specs.Paged.{IfPage, IsPaged};

use crate::embedding::Embedding;
use crate::join::join_server;
use crate::page::page_folder;
use crate::serve::serve_folder;
use command_words::{Command, read_words};
use folder_server::Outside;
use folders::Tree;
use hmr_base::{Sink, Source};
use input_commands::run_alone;
use jobs::{Gate, Spawner};
use join_command::JoinPlan;
use retained_data::{Bag, Ran};
use std::alloc::{AllocError, Global};
use std::sync::Wait;
use std::thread::Threads;
use transport::Net;
use world_parts::discard;

/// What the program does, but for making the real input and output: it answers the exit status.
///
/// `play` reads a script from the input, plays it on a world whose clients get the closures of the shelves,
/// and writes the lines of each step as the step is made. `check NAME` reads a module text from the input,
/// and writes its canonical text and its analysis, or the line of its first fault. `make N SEED` reads
/// nothing: it plays the script of a page of N modules that the seed gives, and writes one line that sums
/// the run up. `record` reads a script as `play` does, plays it, and writes the record of what the server's
/// core was told in its run. `audit` reads a record of what a server's core was told from the input, and
/// writes whether it is sound, or the first line that is wrong and why. What there is to write for these and
/// an input is the definition `output_of`. `serve FOLDER ROOT..` serves the modules of a folder, with the
/// edits of the input and with the record of what its core was told behind its report, where its words ask
/// for them. `join PORT` is one client to a server on this machine, with the closures of the first shelf.
/// `page FOLDER` answers the HTTP requests of the input by the modules of a folder.
///
/// 0: the whole output is written, and a command that reads the input read it to its end. 2: the words are
/// no command; the usage line is written. 3: the input of `play` or `record` is no script, or that of
/// `serve` no edits; the line of its first fault is written. 4: the input failed; nothing is written, but
/// for the answers of `page` so far. 5: the output failed; a prefix of the output is written. 6: the folder
/// failed, in `serve` and `page`. 7: the net, an end of a connection or the start of a thread failed, in
/// `serve` and `join`. 8: a limit was passed, whose line is written last: of the input, a text, the names,
/// the sources, the transcript or the passes, of a client's instances, or of the answers of `page`. 9:
/// memory ran out; a prefix of the output is written. 10: what the server sent is no answer, in `join`. A
/// cause keeps its status where its line can't be written.
///
/// `fresh_load`: at each place of a script where a client is shown and is up, its lines are those of the
/// modules that a fresh load of its own roots writes there, and behind them stale edges alone.
pub fn run<
    F: FnOnce(Bag) -> Result<Ran, AllocError> + Drop + Send + 'static,
    S: Source,
    K: Sink,
    T: Tree,
    N: Net,
    P: Spawner,
    G: Gate + Clone + Drop + Send + 'static,
    R: Threads + Wait + Sync + Copy + Drop + Send + 'static,
>(
    rt: &R,
    alloc: Global,
    words: &[String],
    input: &mut S,
    outside: &mut Outside<K, T, N, P>,
    embedding: Embedding<F, G>,
) -> u8
where
    N::End: Drop + Send + 'static,
    requires callable { (f : F) → F.IsAlwaysCallable f }
    requires hosts { AreHosts F.post embedding.shelves.items }
    requires unopened { T.asked outside.old.tree ≡ None }
    requires unasked { (N.asked outside.old.net ≡ None) × (N.heard outside.old.net ≡ None) }
    requires none_begun { P.begun outside.old.spawner ≡ none_begun }
    ensures known { IsStatus result }
    ensures words { AnswersWords (command_of (map string_bytes words.now))
        (K.written outside.old.out) (K.written outside.new.out)
        (K.faults outside.old.out) (K.faults outside.new.out) result }
    ensures output { WritesOutput
        (output_of (map marks_of embedding.shelves.items) (map string_bytes words.now) (S.left input.old))
        (K.written outside.old.out) (K.written outside.new.out)
        (K.faults outside.old.out) (K.faults outside.new.out) result }
    ensures complete { IsComplete
        (output_of (map marks_of embedding.shelves.items) (map string_bytes words.now) (S.left input.old))
        result }
    ensures input { ReadsInput (command_of (map string_bytes words.now)) (S.left input.new)
        (S.faults input.old) (S.faults input.new)
        (K.written outside.old.out) (K.written outside.new.out) result }
    ensures untouched { reads_input (command_of (map string_bytes words.now)) ≡ false
        → is_page (command_of (map string_bytes words.now)) ≡ false → input.new ≡ input.old }
    ensures unwritten { result ≡ 5 → Rose (K.faults outside.old.out) (K.faults outside.new.out) }
    ensures fresh_load { IfSome (S.left input.old) (λ bytes.
        ShowsAreFresh (map marks_of embedding.shelves.items) (script_of bytes)) }

    ensures served { IfServe (command_of (map string_bytes words.now)) (λ plan.
        HasServed plan (S.left input.old) (T.coming outside.old.tree) (N.heard outside.new.net)
        (K.written outside.old.out) (K.written outside.new.out)
        (K.faults outside.old.out) (K.faults outside.new.out) result
        ⊎ ((result ≡ 9) × Keeps (K.written outside.old.out) (K.written outside.new.out))) }
    ensures begun { IfServe (command_of (map string_bytes words.now)) (λ plan. result ≡ 0
        → P.begun outside.new.spawner ≡ plan.workers ∷ (plan.clients + plan.outside) ∷ plan.clients ∷ []) }
    ensures joined { IfJoin (command_of (map string_bytes words.now)) (λ port roots turns.
        IsJoined (opening_of (map marks_of embedding.shelves.items) roots) turns (N.coming outside.old.net)
        (K.written outside.old.out) (K.written outside.new.out)
        (K.faults outside.old.out) (K.faults outside.new.out) result
        ⊎ ((result ≡ 9) × Keeps (K.written outside.old.out) (K.written outside.new.out))) }
    ensures paged { IfPage (command_of (map string_bytes words.now)) (λ folder.
        IsPaged (T.coming outside.old.tree) (S.left input.old)
        (K.written outside.old.out) (K.written outside.new.out)
        (K.faults outside.old.out) (K.faults outside.new.out) result
        ⊎ ((result ≡ 9) × Keeps (K.written outside.old.out) (K.written outside.new.out))) }
    ensures tree_failed { result ≡ 6 → Rose (T.faults outside.old.tree) (T.faults outside.new.tree) }
    ensures net_failed { result ≡ 7
        → Rose (N.faults outside.old.net) (N.faults outside.new.net)
        ⊎ Rose (P.faults outside.old.spawner) (P.faults outside.new.spawner) }
    ensures bad_answer { result ≡ 10 → is_join (command_of (map string_bytes words.now)) ≡ true }
    ensures asked { MayAsk (command_of (map string_bytes words.now)) (N.asked outside.new.net) }
    ensures opened { MayHaveOpened (command_of (map string_bytes words.now)) (T.asked outside.new.tree) }
{
    let Embedding { gate, shelves } = embedding;
    match read_words(alloc, words) {
        Ok(Command::Serve(plan)) => {
            serve_folder(rt, alloc, plan, input, outside, Embedding { gate, shelves })
        }
        Ok(Command::Join { port, roots, turns }) => {
            let plan = JoinPlan {
                port,
                roots: roots.into_vec(),
                turns,
            };
            join_server(alloc, plan, &mut outside.net, &mut outside.out, shelves)
        }
        Ok(Command::Page(folder)) => {
            discard(shelves);
            page_folder(
                alloc,
                folder.as_str(),
                input,
                &mut outside.out,
                &mut outside.tree,
            )
        }
        read => run_alone(alloc, words, read, input, &mut outside.out, shelves),
    }
}
