// The text that stands for one that is refused: blanks up to the line and column of the fault, and there a
// fault of the module language.
ghost use Rattle.std.specs.Prelude.{◌≡◌, ◌+◌, ◌++◌, ◌<◌, ◌^◌, IfOk, OnOk, decimal, length, replicate};
ghost use Rattle.skeletons.specs.Refusing.{fault_word, refusal, text_with, wrong};

use es_scan::{Fault, FaultKind, place_of};
use hmr_types::{FaultWord, TextFault};
use std::alloc::{AllocError, Global};

/// The farthest line and the farthest column at which the fault of a skeleton stands, so that the skeleton of
/// every text that is refused is a module text's length at most.
pub(crate) const FARTHEST: u32 = 65_000;

/// The fault that the core is told of a text that is refused: at its line and column in bytes, each 65,000 at
/// most. It takes time linear in the text.
pub(crate) fn refusal(text: &[u8], fault: &Fault) -> TextFault
    requires short { length text.now + 1 < 2 ^ 32 }
    ensures { result ≡ refusal text.now fault.now }
{
    let place = place_of(text, (fault.at as usize).min(text.len()));
    TextFault {
        line: place.line.min(FARTHEST),
        col: place.column.min(FARTHEST),
        word: fault_word(fault.kind),
    }
}

/// A text with this fault and this stamp. It takes time and memory linear in its length.
pub(crate) fn text_with(alloc: Global, stamp: u64, fault: &TextFault) -> Result<Vec<u8>, AllocError>
    ensures { IfOk result (λ text. text.items ≡ text_with stamp fault.now) }
{
    let mut text = Vec::new(alloc);
    put_times(&mut text, fault.line.saturating_sub(1), b'\n')?;
    put_times(&mut text, fault.col.saturating_sub(1), b' ')?;
    text.extend_from_slice(wrong(fault.word).as_bytes())?;
    put_number(&mut text, stamp)?;
    Ok(text)
}

fn put_times(text: &mut Vec<u8>, times: u32, byte: u8) -> Result<(), AllocError>
    ensures { OnOk result (text.new.items ≡ text.old.items ++ replicate times byte) }
{
    for i in 0..times {
        text.push(byte)?;
    }
    Ok(())
}

fn put_number(text: &mut Vec<u8>, number: u64) -> Result<(), AllocError>
    ensures { OnOk result (text.new.items ≡ text.old.items ++ decimal number) }
{
    let mut buffer = itoa::Buffer::new();
    text.extend_from_slice(buffer.format(number).as_bytes())
}

/// The word of the module language for a fault.
fn fault_word(kind: FaultKind) -> FaultWord
    ensures { result ≡ fault_word kind }
{
    match kind {
        FaultKind::OpenString => FaultWord::OpenString,
        FaultKind::OpenComment => FaultWord::OpenComment,
        FaultKind::OpenTemplate | FaultKind::OpenRegularExpression => FaultWord::BadByte,
        FaultKind::OpenBracket | FaultKind::UnmatchedBracket | FaultKind::OutOfMemory => {
            FaultWord::Unexpected
        }
    }
}

/// Bytes with the fault of a word.
fn wrong(word: FaultWord) -> &'static str
    ensures { result.now ≡ wrong word }
{
    match word {
        FaultWord::OpenString => "\"",
        FaultWord::OpenComment => "/*",
        FaultWord::BadByte => "`",
        _ => ")//",
    }
}
