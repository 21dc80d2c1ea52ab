// Keys of the terminal: lines of the input, each of one letter. A thread of its own reads them, so that nothing
// waits for them; where the input ends, no key comes any more.
use std::alloc::{AllocError, Global};
use std::io::Read;
use std::sync::Arc;
use std::sync::atomic::{AtomicU64, Ordering};
use std::thread::{self, Threads};

/// That the server ends.
pub(crate) const QUIT: u64 = 1;

/// That the stale bindings are shown.
pub(crate) const STALE: u64 = 2;

/// That the keys are shown.
pub(crate) const HELP: u64 = 4;

/// That all pages are loaded again.
pub(crate) const RELOAD: u64 = 8;

/// The keys that came: which of the numbers above.
pub type Keys = Arc<AtomicU64, Global>;

/// Keys that come from this input, which a thread of its own reads to its end. `AllocError` where memory ran
/// out; where no thread can be had, no key comes.
pub fn keys_of<R: Threads, I: Read + Drop + Send + 'static>(
    rt: &R,
    alloc: Global,
    input: I,
) -> Result<Keys, AllocError> {
    let keys = Arc::new(alloc, AtomicU64::new(0))?;
    let theirs = Arc::try_clone(&keys)?;
    start(rt, input, theirs);
    Ok(keys)
}

fn start<R: Threads, I: Read + Drop + Send + 'static>(rt: &R, input: I, keys: Keys) {
    let input = input;
    // The thread ends with the input, or with the program.
    let _ = thread::spawn(rt, move || read_keys(input, &keys));
}

// Reads to the end of the input. Of each line the last letter counts.
fn read_keys<I: Read + Drop>(mut input: I, keys: &Keys) {
    let mut letter = 0;
    let mut piece = [0; 64];
    for _ in 0..u64::MAX {
        match input.read(&mut piece) {
            Ok(count) if count > 0 => letter = take(&piece[..count], letter, keys),
            _ => return,
        }
    }
}

// Takes some bytes of the input behind a letter, and gives the last letter of the line that is left.
fn take(bytes: &[u8], letter: u8, keys: &Keys) -> u8 {
    let mut letter = letter;
    for byte in bytes {
        if *byte == b'\n' {
            keys.fetch_or(key_of(letter), Ordering::SeqCst);
            letter = 0;
        } else if *byte != b'\r' {
            letter = *byte;
        }
    }
    letter
}

fn key_of(letter: u8) -> u64 {
    match letter {
        b'q' | b'Q' => QUIT,
        b's' | b'S' => STALE,
        b'h' | b'H' | b'?' => HELP,
        b'r' | b'R' => RELOAD,
        _ => 0,
    }
}
