//! The program of `./hmr dev`: a folder is served to browsers on this machine until it is told to end.
//!
//! It reads the words, takes a port, and makes the real folder, net, threads and terminal of a live server;
//! and of a further one at the same port, where a key asks for it or the hub of the one before can take no
//! more. Stands on `live_words` for the words, on `live_setup` for the port, the folder and the site, on
//! `tcp_doors` for the real net, on `live_terminal` for the terminal, on `live_lines` for its colours, and
//! on `live_server`, of what is in `live_context`, for all that it does. Keeps: what is served is what the
//! words can ask for. Knows nothing of messages, edits or sessions.
#![tactic(auto)]

ghost use Rattle.std.specs.Prelude.{◌≡◌};

mod endings;
mod wanted;

use endings::{NO_MEMORY, NO_NET, OTHER, status_of, style_of};
use hmr_base::StdSink;
use hmr_types::ModName;
use jobs::ThreadSpawner;
use live_context::{Folder, LivePlan, Supply};
use live_server::serve_live;
use live_setup::{Sides, listen_next, page_roots, sides_of};
use live_terminal::{Manner, Screen, keys_of, offset_here};
use live_words::DevPlan;
use std::process::ExitCode;
use std::time::Instant;
use tcp_doors::TcpEntrance;
use wanted::wanted;

/// How many doors there are at each address: 32 pages, and the others for what they load.
const DOORS: u32 = 48;

fn main(rt: HostRuntime) -> ExitCode {
    let alloc = rt.alloc();
    let dev = match wanted(&rt, alloc) {
        Ok(dev) => dev,
        Err(status) => return ExitCode::from(status),
    };
    let Ok(keys) = keys_of(&rt, alloc, rt.stdin()) else {
        return ExitCode::from(NO_MEMORY);
    };
    let Ok(roots) = page_roots(alloc) else {
        return ExitCode::from(NO_MEMORY);
    };
    let manner = manner_of(&rt, &dev);
    let live = plan_of(&dev, &roots);
    let mut screen = Screen::new(alloc, rt, StdSink::new(rt.stdout()), manner, keys);
    // One server after another.
    for number in 1..u64::MAX {
        screen.begin(alloc, Instant::now(&rt).ok());
        let Ok(mut entrance) = TcpEntrance::new(alloc, rt) else {
            return ExitCode::from(NO_MEMORY);
        };
        let before = screen.port();
        let Some(port) = listen_next(&rt, alloc, &mut entrance, dev.port, dev.is_strict, before)
        else {
            say_taken(&rt, screen.port().unwrap_or(dev.port));
            return ExitCode::from(NO_NET);
        };
        screen.listens(port);
        let Ok(sides) = sides_of(&rt, alloc, &dev, port) else {
            return ExitCode::from(NO_MEMORY);
        };
        let Sides { watched, site } = sides;
        let folder = Folder { watched, site };
        let mut supply = Supply {
            entrance,
            port,
            spawner: ThreadSpawner::new(),
        };
        let served = serve_live(&rt, alloc, &live, folder, &mut supply, &mut screen);
        let Ok(report) = served else {
            return ExitCode::from(NO_MEMORY);
        };
        if let Some(status) = status_of(&rt, alloc, &report, &dev.record, number) {
            return ExitCode::from(status);
        }
        if !screen.begins_anew(alloc, report.end) {
            return ExitCode::from(OTHER);
        }
    }
    ExitCode::from(OTHER)
}

// How news are told.
fn manner_of(rt: &HostRuntime, dev: &DevPlan) -> Manner {
    Manner {
        wanted: dev.port,
        style: style_of(rt),
        is_json: dev.is_json,
        offset: offset_here(rt),
    }
}

// What a server begins at, and how much it does.
fn plan_of<'a>(dev: &DevPlan, roots: &'a [ModName]) -> LivePlan<'a>
    ensures roots { result.roots.now ≡ roots.now }
    ensures workers { result.workers ≡ dev.now.workers }
{
    LivePlan {
        roots,
        workers: dev.workers,
        doors: DOORS,
        recorded: dev.record.is_some(),
    }
}

// Says that a port can't be had.
fn say_taken(rt: &HostRuntime, port: u16) {
    let _ = eprintln!(rt;
        "hmr dev: the port {port} is taken by another program, or needs the system's leave"
    );
}
