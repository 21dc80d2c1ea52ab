//! The program: the top call over the real input, output, folder, net and threads.
//!
//! It makes them, and the closures that stand for an embedding program, and answers the status of the top
//! call; where there is no memory for its words or the closures, it answers 9. Stands on `top_call` and on
//! what makes the real outside. Keeps: nothing of its own is read or written. Knows nothing of commands.
#![tactic(auto)]

use folders::FolderTree;
use handler_table::host_run;
use hmr_base::{StdSink, StdSource};
use jobs::{OpenGate, ThreadSpawner};
use retained_data::{Bag, Ran};
use script_runs::host_shelves;
use std::alloc::AllocError;
use std::env;
use std::io::ErrorKind;
use std::process::ExitCode;
use top_call::{Embedding, Outside, run};
use ws_links::TcpNet;

/// The status where memory runs out.
const NO_MEMORY: u8 = 9;

fn main(rt: HostRuntime) -> ExitCode {
    let alloc = rt.alloc();
    let mut words = Vec::new(alloc);
    match env::args(&rt) {
        Ok(args) => {
            for word in args.skip(1) {
                if words.push(word).is_err() {
                    return ExitCode::from(NO_MEMORY);
                }
            }
        }
        Err(error) if error.kind() == ErrorKind::OutOfMemory => return ExitCode::from(NO_MEMORY),
        // A word that isn't UTF-8 makes no command, as no word at all makes none.
        Err(_) => {}
    }
    let make = |number: u32| {
        move |bag: Bag| -> Result<Ran, AllocError> { host_run(alloc, "H", number, bag) }
    };
    let Ok(shelves) = host_shelves(alloc, make) else {
        return ExitCode::from(NO_MEMORY);
    };
    let mut input = StdSource::new(rt.stdin());
    let mut outside = Outside {
        out: StdSink::new(rt.stdout()),
        tree: FolderTree::new(rt),
        net: TcpNet::new(rt),
        spawner: ThreadSpawner::new(),
    };
    let embedding = Embedding {
        gate: OpenGate,
        shelves,
    };
    let status = run(&rt, alloc, &words, &mut input, &mut outside, embedding);
    ExitCode::from(status)
}
