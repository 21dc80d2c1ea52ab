// Runs of the top call over an input, an output, a folder, a net and threads of which chosen calls fail.
ghost use Rattle.std.specs.Prelude.{◌≡◌, None};

use folders::{MemFile, MemTree};
use handler_table::host_run;
use hmr_base::{MemSink, MemSource};
use jobs::{CutSpawner, OpenGate, ThreadSpawner};
use retained_data::{Bag, Ran};
use script_runs::host_shelves;
use std::alloc::{AllocError, Global};
use std::collections::VecDeque;
use std::sync::Wait;
use std::thread::Threads;
use top_call::{Embedding, Outside, run};
use transport::{MemNet, Net, TellNet};

/// The text of the one module of the folder.
const MODULE: &[u8] = b"export const n = 1;\n";

/// The most bytes that a read of the input gives; a long input comes in larger pieces.
const PIECE: usize = 40;

/// The most bytes that a write of the output takes.
pub(crate) const WRITTEN: usize = 7;

/// The number of no call.
pub(crate) const NEVER: u64 = 1_000_000;

/// The number, from 0, of the call of each kind that fails: of the reads of the input, of the writes of the
/// output, of the calls of the folder, of those of the net, of those of one of its ends, and of the starts of
/// threads.
#[derive(Clone, Copy)]
pub(crate) struct Faults {
    pub read: u64,
    pub write: u64,
    pub tree: u64,
    pub net: u64,
    pub end: u64,
    pub end_call: u64,
    pub start: u64,
}

/// No call fails.
pub(crate) const NONE: Faults = Faults {
    read: NEVER,
    write: NEVER,
    tree: NEVER,
    net: NEVER,
    end: 0,
    end_call: NEVER,
    start: NEVER,
};

/// The status that the words, parted by spaces, come to, and what they write: over this input, and a folder
/// that has one module.
pub(crate) fn outcome<R: Threads + Wait + Sync + Copy + Drop + Send + 'static>(
    rt: R,
    alloc: Global,
    words: &str,
    text: &[u8],
    faults: &Faults,
) -> Result<(u8, Vec<u8>), AllocError> {
    let mut looks = VecDeque::new(alloc);
    looks.push_back(look(alloc)?)?;
    let ends = ends_of(alloc, faults)?;
    let net = MemNet::new(alloc, rt, one(alloc, faults.net)?, ends)?;
    let given = Given {
        words,
        text,
        faults,
    };
    outcome_over(rt, alloc, given, looks, net)
}

/// What `join` comes to at a server that tells these messages.
pub(crate) fn joined<R: Threads + Wait + Sync + Copy + Drop + Send + 'static>(
    rt: R,
    alloc: Global,
    told: &[&str],
    faults: &Faults,
) -> Result<(u8, Vec<u8>), AllocError> {
    let mut coming = VecDeque::new(alloc);
    for message in told {
        coming.push_back(Vec::from_slice(alloc, message.as_bytes())?)?;
    }
    let ends = ends_of(alloc, faults)?;
    let net = TellNet::new(rt, coming, one(alloc, faults.net)?, ends);
    let given = Given {
        words: "join 5173 --turns 3",
        text: b"",
        faults,
    };
    outcome_over(rt, alloc, given, VecDeque::new(alloc), net)
}

// What a run is given: its words, parted by spaces, its input, and which calls fail.
#[derive(Clone, Copy)]
struct Given<'a> {
    words: &'a str,
    text: &'a [u8],
    faults: &'a Faults,
}

// What a run comes to over looks at a folder and over a net.
fn outcome_over<R: Threads + Wait + Sync + Copy + Drop + Send + 'static, N: Net + Drop>(
    rt: R,
    alloc: Global,
    given: Given<'_>,
    looks: VecDeque<Vec<MemFile>>,
    net: N,
) -> Result<(u8, Vec<u8>), AllocError>
where
    N::End: Drop + Send + 'static,
    requires unasked { N.asked net ≡ None }
    requires unheard { N.heard net ≡ None }
{
    let Given {
        words,
        text,
        faults,
    } = given;
    let mut list = Vec::new(alloc);
    for word in words.split_whitespace() {
        list.push(String::from_str(alloc, word)?)?;
    }
    let piece = PIECE.max(text.len() / 1000);
    let text = Vec::from_slice(alloc, text)?;
    let mut input = MemSource::new(text, piece, one(alloc, faults.read)?);
    let mut outside = Outside {
        out: MemSink::new(alloc, 4096, WRITTEN, one(alloc, faults.write)?)?,
        tree: MemTree::new(looks, one(alloc, faults.tree)?),
        net,
        spawner: CutSpawner::new(ThreadSpawner::new(), one(alloc, faults.start)?),
    };
    let make = |number: u32| {
        move |bag: Bag| -> Result<Ran, AllocError> { host_run(alloc, "H", number, bag) }
    };
    let embedding = Embedding {
        gate: OpenGate,
        shelves: host_shelves(alloc, make)?,
    };
    let status = run(&rt, alloc, &list, &mut input, &mut outside, embedding);
    Ok((status, Vec::from_slice(alloc, outside.out.bytes())?))
}

// A look at a folder that finds one module.
fn look(alloc: Global) -> Result<Vec<MemFile>, AllocError> {
    let mut files = Vec::new(alloc);
    files.push(MemFile {
        path: String::from_str(alloc, "/m.js")?,
        text: Vec::from_slice(alloc, MODULE)?,
    })?;
    Ok(files)
}

// The number of the one call that fails.
fn one(alloc: Global, number: u64) -> Result<Vec<u64>, AllocError> {
    let mut numbers = Vec::new(alloc);
    numbers.push(number)?;
    Ok(numbers)
}

// Which calls fail of each end that a net gives, up to the one of which a call fails.
fn ends_of(alloc: Global, faults: &Faults) -> Result<VecDeque<Vec<u64>>, AllocError> {
    let mut ends = VecDeque::new(alloc);
    for _ in 0..faults.end {
        ends.push_back(Vec::new(alloc))?;
    }
    ends.push_back(one(alloc, faults.end_call)?)?;
    Ok(ends)
}
