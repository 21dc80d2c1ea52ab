// The words, read one after another.
ghost use Rattle.std.specs.Prelude.{◌≡◌, ◌≤◌, IfOk, IfSome, true};
ghost use Rattle.core_model.specs.Names.{has};
ghost use Rattle.core_model.specs.Roots.{are_distinct};
ghost use Rattle.hmr_types.specs.declared.limits.TheConstants.{ROOTS};
ghost use Rattle.live_words.specs.Words.{Fits, InRange, IsServable};

use crate::dev_plan::{DevPlan, Wanted};
use crate::nearest::nearest_option;
use crate::numbers::number_in;
use crate::option::DevOption;
use crate::words_fault::WordsFault;
use hmr_types::limits::ROOTS;
use hmr_types::{ModName, NameFault, Sequence, Text};
use std::alloc::{AllocError, Global};

/// What the words ask for, those behind `dev`: one folder, and then roots; options may stand anywhere, with
/// their values behind them or behind a `=`. Where `--help` stands, the help is wanted, if nothing before it is
/// wrong. Where none is named the port is 5173, and there are 2 workers.
pub fn read_words(alloc: Global, words: &[String]) -> Result<Wanted, WordsFault>
    ensures { IfOk result IsServable }
{
    let mut came = Came::new(alloc);
    for word in words {
        came.take(alloc, word.as_str())?;
    }
    came.finish()
}

// What came so far.
#[derive(Drop)]
pub(crate) struct Came {
    pub folder: Option<Text>,
    pub roots: Vec<ModName>,
    pub port: Option<u32>,
    pub is_strict: bool,
    pub workers: Option<u32>,
    pub is_json: bool,
    pub record: Option<Text>,
    pub is_help: bool,
    // The option whose value comes next.
    pub awaited: Option<DevOption>,
}

impl Came {
    fn new(alloc: Global) -> Came
        ensures { Fits result }
    {
        Came {
            folder: None,
            roots: Vec::new(alloc),
            port: None,
            is_strict: false,
            workers: None,
            is_json: false,
            record: None,
            is_help: false,
            awaited: None,
        }
    }

    // Takes the next word.
    fn take(&mut self, alloc: Global, word: &str) -> Result<(), WordsFault>
        requires fits { Fits self.old }
        ensures fits { Fits self.new }
    {
        if let Some(option) = self.awaited {
            self.awaited = None;
            return self.give(alloc, option, word);
        }
        match word.strip_prefix("--") {
            Some(_) => self.take_option(alloc, word),
            None => self.take_place(alloc, word),
        }
    }

    fn take_option(&mut self, alloc: Global, word: &str) -> Result<(), WordsFault>
        requires fits { Fits self.old }
        ensures fits { Fits self.new }
    {
        let (name, value) = match word.split_once('=') {
            Some((name, value)) => (name, Some(value)),
            None => (word, None),
        };
        let Some(option) = option_of(name) else {
            return Err(WordsFault::Unknown {
                word: text_of(alloc, name)?,
                nearest: nearest_option(alloc, name)?,
            });
        };
        match value {
            Some(value) => {
                if option.takes_value() {
                    self.give(alloc, option, value)
                } else {
                    Err(WordsFault::Valued(option))
                }
            }
            None => {
                if option.takes_value() {
                    self.awaited = Some(option);
                    Ok(())
                } else {
                    self.set(option)
                }
            }
        }
    }

    // Sets an option that takes no value.
    fn set(&mut self, option: DevOption) -> Result<(), WordsFault>
        requires fits { Fits self.old }
        ensures fits { Fits self.new }
    {
        match option {
            DevOption::StrictPort => self.is_strict = true,
            DevOption::Json => self.is_json = true,
            DevOption::Help => self.is_help = true,
            DevOption::Port | DevOption::Workers | DevOption::Record => {
                return Err(WordsFault::NoValue(option));
            }
        }
        Ok(())
    }

    // Gives an option its value.
    fn give(&mut self, alloc: Global, option: DevOption, word: &str) -> Result<(), WordsFault>
        requires fits { Fits self.old }
        ensures fits { Fits self.new }
    {
        match option {
            DevOption::Port => {
                if self.port.is_some() {
                    return Err(WordsFault::Twice(option));
                }
                let number = number_of(alloc, option, word, 0, 65535)?;
                self.port = Some(number);
            }
            DevOption::Workers => {
                if self.workers.is_some() {
                    return Err(WordsFault::Twice(option));
                }
                let number = number_of(alloc, option, word, 1, 16)?;
                self.workers = Some(number);
            }
            DevOption::Record => {
                if self.record.is_some() {
                    return Err(WordsFault::Twice(option));
                }
                let text = text_of(alloc, word)?;
                self.record = Some(text);
            }
            DevOption::StrictPort | DevOption::Json | DevOption::Help => {
                return Err(WordsFault::Valued(option));
            }
        }
        Ok(())
    }

    // Takes a word that is no option: the folder, or a root.
    fn take_place(&mut self, alloc: Global, word: &str) -> Result<(), WordsFault>
        requires fits { Fits self.old }
        ensures fits { Fits self.new }
    {
        if self.folder.is_none() {
            let folder = text_of(alloc, word)?;
            self.folder = Some(folder);
            return Ok(());
        }
        self.take_root(alloc, word)
    }

    fn take_root(&mut self, alloc: Global, word: &str) -> Result<(), WordsFault>
        requires fits { Fits self.old }
        ensures fits { Fits self.new }
    {
        let root = match ModName::read(alloc, word.as_bytes()) {
            Ok(root) => root,
            Err(NameFault::NotAName) => return Err(WordsFault::BadRoot(text_of(alloc, word)?)),
            Err(NameFault::NoMemory) => return Err(WordsFault::NoMemory),
        };
        if self.roots.len() >= ROOTS {
            return Err(WordsFault::TooManyRoots);
        }
        match self.roots.push(root) {
            Ok(()) => Ok(()),
            Err(_) => Err(WordsFault::NoMemory),
        }
    }

    // What all of the words ask for.
    fn finish(self) -> Result<Wanted, WordsFault>
        requires fits { Fits self }
        ensures { IfOk result IsServable }
    {
        let Came {
            folder,
            roots,
            port,
            is_strict,
            workers,
            is_json,
            record,
            is_help,
            awaited,
        } = self;
        if let Some(option) = awaited {
            return Err(WordsFault::NoValue(option));
        }
        if is_help {
            return Ok(Wanted::Help);
        }
        let Some(folder) = folder else {
            return Err(WordsFault::NoFolder);
        };
        if !are_distinct(&roots) {
            return Err(WordsFault::RootTwice);
        }
        Ok(Wanted::Serve(DevPlan {
            folder,
            roots: Sequence::from_vec(roots),
            port: port_of(port),
            is_strict,
            workers: workers_of(workers),
            is_json,
            record,
        }))
    }
}

// Whether no two of the names are equal.
fn are_distinct(names: &[ModName]) -> bool
    ensures { result ≡ are_distinct names.now }
{
    for place in 0..names.len() {
        if has_name(&names[place + 1..], &names[place]) {
            return false;
        }
    }
    true
}

fn has_name(names: &[ModName], name: &ModName) -> bool
    ensures { result ≡ has names.now name.now }
{
    names.iter().any(|known| known == name)
}

fn port_of(port: Option<u32>) -> u16
    requires fits { IfSome port (InRange 0 65535) }
{
    match port {
        Some(port) => port as u16,
        None => 5173,
    }
}

fn workers_of(workers: Option<u32>) -> u32
    requires fits { IfSome workers (InRange 1 16) }
    ensures { InRange 1 16 result }
{
    match workers {
        Some(workers) => workers,
        None => 2,
    }
}

// The number of an option.
fn number_of(
    alloc: Global,
    option: DevOption,
    word: &str,
    low: u32,
    high: u32,
) -> Result<u32, WordsFault>
    ensures { IfOk result (InRange low high) }
{
    match number_in(word, low, high) {
        Some(number) => Ok(number),
        None => Err(WordsFault::BadNumber {
            option,
            word: text_of(alloc, word)?,
        }),
    }
}

fn text_of(alloc: Global, word: &str) -> Result<Text, AllocError> {
    let text = String::from_str(alloc, word)?;
    Ok(Text::from_string(text))
}

// The option of this name.
fn option_of(name: &str) -> Option<DevOption> {
    match name {
        "--port" => Some(DevOption::Port),
        "--strict-port" => Some(DevOption::StrictPort),
        "--workers" => Some(DevOption::Workers),
        "--json" => Some(DevOption::Json),
        "--record" => Some(DevOption::Record),
        "--help" => Some(DevOption::Help),
        _ => None,
    }
}
