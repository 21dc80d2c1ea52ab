// A server of a folder in memory, whose workers stop at a gate.
ghost use Rattle.std.specs.Prelude.{◌≡◌, None};

use crate::turning_gate::TurningGate;
use folder_server::{Outside, Plan, ServeStop, ServeTask, serve};
use folders::{MemFile, MemTree};
use handler_table::Shelf;
use hmr_base::MemSink;
use hmr_types::{ModName, Text};
use jobs::ThreadSpawner;
use retained_data::{Bag, Ran};
use std::alloc::{AllocError, Global};
use std::collections::VecDeque;
use std::slice;
use std::sync::Wait;
use std::thread::Threads;
use transport::Net;

/// The most bytes that a report has here.
const ROOM: usize = 4096;

/// A server that is over: how it ended, and what it wrote.
#[derive(Drop)]
pub(crate) struct Over {
    pub ended: Result<(), ServeStop>,
    pub report: String,
}

/// A folder by its files at each look.
pub(crate) type Looks = VecDeque<Vec<MemFile>>;

/// Files of these paths and texts.
pub(crate) fn files(alloc: Global, texts: &[(&str, &str)]) -> Result<Vec<MemFile>, AllocError> {
    let mut files = Vec::new(alloc);
    for (path, text) in texts {
        files.push(MemFile {
            path: String::from_str(alloc, path)?,
            text: Vec::from_slice(alloc, text.as_bytes())?,
        })?;
    }
    Ok(files)
}

/// Serves the page of `/m.js` over a net: with two workers and no client, and one look at the folder after the
/// first. Closures are of the sample's type.
pub(crate) fn served<
    F: FnOnce(Bag) -> Result<Ran, AllocError> + Drop + Send + 'static,
    N: Net + Drop,
    R: Threads + Wait + Sync + Copy + Drop + Send + 'static,
>(
    rt: &R,
    alloc: Global,
    _sample: F,
    looks: Looks,
    gate: TurningGate,
    net: N,
) -> Result<Over, AllocError>
where
    N::End: Drop + Send + 'static,
    requires callable { (f : F) → F.IsAlwaysCallable f }
    requires unasked { N.asked net ≡ None }
    requires unheard { N.heard net ≡ None }
{
    let mut roots = Vec::new(alloc);
    roots.push(root(alloc)?)?;
    let task = ServeTask {
        plan: Plan {
            port: 0,
            clients: 0,
            outside: 0,
            turns: 4,
            workers: 2,
            rounds: 1,
            recorded: false,
        },
        folder: Text::from_string(String::from_str(alloc, "site")?),
        roots,
        script: Vec::new(alloc),
    };
    let mut outside = Outside {
        out: MemSink::new(alloc, ROOM, ROOM, Vec::new(alloc))?,
        tree: MemTree::new(looks, Vec::new(alloc)),
        net,
        spawner: ThreadSpawner::new(),
    };
    let mut shelf: Shelf<F> = Shelf::new(Vec::new(alloc));
    let shelves = slice::from_mut(&mut shelf);
    let ended = serve(rt, alloc, task, &mut outside, gate, shelves);
    shelf.end();
    Ok(Over {
        ended,
        report: String::from_utf8_lossy(alloc, outside.out.bytes())?,
    })
}

// The root of the page.
fn root(alloc: Global) -> Result<ModName, AllocError> {
    ModName::read(alloc, b"/m.js").map_err(|_| AllocError)
}
