// A command of the program as a value, and why words are none.
ghost use Rattle.std.specs.Prelude.{◌≡◌};

use hmr_types::{ModName, Sequence, Text};
use std::alloc::{AllocError, AllocFailed};

/// What the program is asked to do.
#[derive(Debug, Drop)]
pub enum Command {
    /// `play`: reads a script, and plays it.
    Play,
    /// `check NAME`: reads a module text as the module of this name.
    Check(ModName),
    /// `make N SEED`: makes a script of `count` modules from the seed, and plays it.
    Make {
        /// How many modules, from 1 to 4,096.
        count: u32,
        /// The seed, below 2,147,483,648.
        seed: u32,
    },
    /// `serve FOLDER ROOT..` and options: serves the modules of a folder.
    Serve(ServePlan),
    /// `join PORT [ROOT..]`, `--turns T`: one client to a server on this machine.
    Join {
        /// The port of the server, from 1.
        port: u16,
        /// The roots of the page, 16 at most and no two equal; with none, it has the server's.
        roots: Sequence<ModName>,
        /// How many requests the client makes, up to 400,000.
        turns: u32,
    },
    /// `page FOLDER`: answers HTTP requests of the input by the modules of this folder.
    Page(Text),
    /// `record`: reads a script, and writes the record of the events that its server is told.
    Record,
    /// `audit`: reads a record, and writes whether it is sound.
    Audit,
}

/// What `serve` is asked to do.
#[derive(Debug, Drop)]
pub struct ServePlan {
    /// The folder that has the modules.
    pub folder: Text,
    /// The roots of the page, from 1 to 16, no two equal.
    pub roots: Sequence<ModName>,
    /// The port; at 0 the system chooses one.
    pub port: u16,
    /// How many clients the program begins itself, up to 32.
    pub clients: u32,
    /// How many sessions it begins for clients from outside, up to 32.
    pub outside: u32,
    /// How many requests each of its own clients makes, up to 400,000.
    pub turns: u32,
    /// How many workers transform texts, from 1 to 16.
    pub workers: u32,
    /// How often the folder is listed again, up to 1,000.
    pub rounds: u32,
    /// Whether the input has edits.
    pub edits: bool,
    /// Whether the record of the server's transcript is written behind its report.
    pub recorded: bool,
}

/// Why [`read_words`](crate::read_words) refuses.
#[derive(Clone, Copy, Debug, PartialEq, Eq)]
pub enum WordsFault {
    /// The words are no command.
    NotACommand,
    /// Memory ran out: this says nothing of the words.
    NoMemory,
}

impl From<AllocError> for WordsFault {
    ghost use Rattle.command_words.specs.declared.command.WordsFault.TheVariants.{NoMemory};

    ghost from_gives = { λ _ fault. fault ≡ NoMemory };

    fn from(_: AllocError) -> Self {
        WordsFault::NoMemory
    }
}

impl<T: Drop> From<AllocFailed<T>> for WordsFault {
    ghost use Rattle.command_words.specs.declared.command.WordsFault.TheVariants.{NoMemory};

    ghost from_gives = { λ _ fault. fault ≡ NoMemory };

    fn from(_: AllocFailed<T>) -> Self {
        WordsFault::NoMemory
    }
}
