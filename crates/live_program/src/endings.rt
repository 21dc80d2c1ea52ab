// The statuses with which the program ends, the records that its servers leave, and what is looked at for them.
use hmr_types::Text;
use live_context::{LiveEnd, LiveReport};
use live_lines::Style;
use std::alloc::{AllocError, Global};
use std::io::IsTerminal;
use std::{env, fs};

/// Any other end.
pub(crate) const OTHER: u8 = 1;

/// The words are wrong.
pub(crate) const WRONG_WORDS: u8 = 2;

/// A record couldn't be written.
const NO_OUTPUT: u8 = 5;

/// There is no such folder.
pub(crate) const NO_FOLDER: u8 = 6;

/// No port, door or thread could be had.
pub(crate) const NO_NET: u8 = 7;

/// Memory ran out.
pub(crate) const NO_MEMORY: u8 = 9;

/// Whether there is a folder at a path.
pub(crate) fn is_folder(rt: &HostRuntime, path: &str) -> bool {
    match fs::metadata(rt, path) {
        Ok(data) => data.is_dir(),
        Err(_) => false,
    }
}

/// Whether there is a file of this name in the folder at a path. `AllocError` where memory ran out.
pub(crate) fn has_file(
    rt: &HostRuntime,
    alloc: Global,
    folder: &str,
    name: &str,
) -> Result<bool, AllocError> {
    let path = format!(in alloc; "{folder}/{name}")?;
    match fs::metadata(rt, path.as_str()) {
        Ok(data) => Ok(data.is_file()),
        Err(_) => Ok(false),
    }
}

/// Colours where the output is a terminal, unless `NO_COLOR` is set to something.
pub(crate) fn style_of(rt: &HostRuntime) -> Style {
    let is_refused = match env::var(rt, "NO_COLOR") {
        Ok(value) => !value.is_empty(),
        Err(_) => false,
    };
    if rt.stdout().is_terminal() && !is_refused {
        Style::Coloured
    } else {
        Style::Plain
    }
}

/// Keeps the record of a server, where records are wanted, and gives the status with which the program ends;
/// None where a further server begins.
pub(crate) fn status_of(
    rt: &HostRuntime,
    alloc: Global,
    report: &LiveReport,
    record: &Option<Text>,
    number: u64,
) -> Option<u8> {
    let is_over = match report.end {
        LiveEnd::NoMemory => return Some(NO_MEMORY),
        LiveEnd::Fault => return Some(NO_NET),
        LiveEnd::Quit => true,
        LiveEnd::Reload | LiveEnd::Full | LiveEnd::Spent => false,
    };
    match keep_record(rt, alloc, report, record, number) {
        0 if is_over => Some(0),
        0 => None,
        refused => Some(refused),
    }
}

// Writes the record, where one is wanted: that of the first server to the file, that of each further one to a
// file with its number. The status: 0 where nothing failed.
fn keep_record(
    rt: &HostRuntime,
    alloc: Global,
    report: &LiveReport,
    record: &Option<Text>,
    number: u64,
) -> u8 {
    let Some(path) = record else {
        return 0;
    };
    let Some(bytes) = &report.record else {
        return NO_MEMORY;
    };
    let Ok(path) = path_of(alloc, path, number) else {
        return NO_MEMORY;
    };
    match fs::write(rt, path.as_str(), bytes) {
        Ok(()) => 0,
        Err(_) => NO_OUTPUT,
    }
}

// The file of the record of this server.
fn path_of(alloc: Global, first: &Text, number: u64) -> Result<String, AllocError> {
    let first = first.as_str();
    if number == 1 {
        String::from_str(alloc, first)
    } else {
        format!(in alloc; "{first}.{number}")
    }
}
