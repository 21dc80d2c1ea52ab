// The command `serve`: the edits of the input are read where they are asked for, and the folder is served.
ghost use Rattle.std.specs.Prelude.{◌≡◌, ◌≢◌, ◌⊎◌, ◌+◌, ◌∷◌, [], Err, None, Ok, Some, false, true};
ghost use Rattle.std.specs.Io.KnownBytes.{IsAtEnd, Keeps};
ghost use Rattle.hmr_base.specs.Causes.{Rose};
ghost use Rattle.command_words.specs.Words.{IsServable};
ghost use Rattle.folders.specs.Files.{MayOpen};
ghost use Rattle.world_parts.specs.Shelves.{AreHosts};
ghost use Rattle.jobs.specs.Begun.{none_begun};
ghost use Rattle.transport.specs.declared.net.Asked.{Asked};
ghost use Rattle.top_call.specs.Outside.{HasServed, IsServeStatus, status_of_serve};

use crate::embedding::Embedding;
use command_ends::Status;
use command_words::ServePlan;
use edit_input::{script_of, tell_stop};
use folder_server::{Outside, Plan, ServeStop, ServeTask, serve};
use folders::Tree;
use hmr_base::{Sink, Source};
use jobs::{Gate, Spawner};
use retained_data::{Bag, Ran};
use std::alloc::{AllocError, Global};
use std::sync::Wait;
use std::thread::Threads;
use transport::Net;
use world_parts::discard;

/// Serves the folder of a plan, with the edits of the input where the plan asks for them. It answers the
/// exit status: 3, 4, 8 and 9 where the input has no edits, with the line of the fault or of the limit for 3
/// and 8; else 0, 5, 6, 7, 8 and 9 as [`serve`] ended.
pub(crate) fn serve_folder<
    F: FnOnce(Bag) -> Result<Ran, AllocError> + Drop + Send + 'static,
    S: Source,
    K: Sink,
    T: Tree,
    N: Net,
    P: Spawner,
    G: Gate + Clone + Drop + Send + 'static,
    R: Threads + Wait + Sync + Copy + Drop + Send + 'static,
>(
    rt: &R,
    alloc: Global,
    plan: ServePlan,
    input: &mut S,
    outside: &mut Outside<K, T, N, P>,
    embedding: Embedding<F, G>,
) -> u8
where
    N::End: Drop + Send + 'static,
    requires plan { IsServable plan }
    requires unopened { T.asked outside.old.tree ≡ None }
    requires unasked { (N.asked outside.old.net ≡ None) × (N.heard outside.old.net ≡ None) }
    requires none_begun { P.begun outside.old.spawner ≡ none_begun }
    requires callable { (f : F) → F.IsAlwaysCallable f }
    requires hosts { AreHosts F.post embedding.shelves.items }
    ensures served { HasServed plan (S.left input.old) (T.coming outside.old.tree) (N.heard outside.new.net)
        (K.written outside.old.out) (K.written outside.new.out)
        (K.faults outside.old.out) (K.faults outside.new.out) result }
    ensures known { IsServeStatus result }
    ensures begun { result ≡ 0 → P.begun outside.new.spawner
        ≡ plan.workers ∷ (plan.clients + plan.outside) ∷ plan.clients ∷ [] }
    ensures unread { result ≡ 4 → (plan.edits ≡ true) × Rose (S.faults input.old) (S.faults input.new) }
    ensures unread_silent { result ≡ 4 → Keeps (K.written outside.old.out) (K.written outside.new.out) }
    ensures unwritten { result ≡ 5 → Rose (K.faults outside.old.out) (K.faults outside.new.out) }
    ensures tree_fault { result ≡ 6 → Rose (T.faults outside.old.tree) (T.faults outside.new.tree) }
    ensures fault { result ≡ 7
        → Rose (N.faults outside.old.net) (N.faults outside.new.net)
        ⊎ Rose (P.faults outside.old.spawner) (P.faults outside.new.spawner) }
    ensures asked { (N.asked outside.new.net ≡ None)
        ⊎ (N.asked outside.new.net ≡ Some (Asked.Listen plan.port)) }
    ensures opened { MayOpen (T.asked outside.new.tree) plan.folder }
    ensures end { result ≡ 0 → plan.edits ≡ true → IsAtEnd (S.left input.new) }
    ensures untouched { plan.edits ≡ false → input.new ≡ input.old }
{
    let Embedding { gate, mut shelves } = embedding;
    let script = match script_of(alloc, plan.edits, input) {
        Ok(script) => script,
        Err(stop) => {
            discard(shelves);
            return tell_stop(stop, &mut outside.out);
        }
    };
    let sizes = Plan {
        port: plan.port,
        clients: plan.clients,
        outside: plan.outside,
        turns: plan.turns,
        workers: plan.workers,
        rounds: plan.rounds,
        recorded: plan.recorded,
    };
    let ServePlan { folder, roots, .. } = plan;
    let task = ServeTask {
        plan: sizes,
        folder,
        roots: roots.into_vec(),
        script,
    };
    let ended = serve(rt, alloc, task, outside, gate, &mut shelves);
    discard(shelves);
    status_of(ended)
}

// The exit status of a server's end.
fn status_of(ended: Result<(), ServeStop>) -> u8
    ensures is { result ≡ status_of_serve ended }
    ensures known { IsServeStatus result }
    ensures unread { result ≢ 4 }
    ensures done { result ≡ 0 → ended ≡ Ok tt }
    ensures unwritten { result ≡ 5 → ended ≡ Err ServeStop.Unwritten }
    ensures tree { result ≡ 6 → ended ≡ Err ServeStop.Tree }
    ensures fault { result ≡ 7 → ended ≡ Err ServeStop.Fault }
{
    match ended {
        Ok(()) => Status::Done.number(),
        Err(ServeStop::Unwritten) => Status::Unwritten.number(),
        Err(ServeStop::Tree) => Status::Tree.number(),
        Err(ServeStop::Fault) => Status::Net.number(),
        Err(ServeStop::Limit(_)) => Status::Limit.number(),
        Err(ServeStop::NoMemory) => Status::NoMemory.number(),
    }
}
