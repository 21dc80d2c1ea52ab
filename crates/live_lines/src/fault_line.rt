// The line of a text at which a fault stands.
ghost use Rattle.std.specs.Prelude.{◌≡◌, IfOk, take};
ghost use Rattle.live_lines.specs.FaultLines.{after_lines, first_line, line_at, line_in};

use hmr_types::Text;
use std::alloc::{AllocError, Global};

/// The most bytes of a line that are shown.
const SHOWN_BYTES: usize = 200;

/// The line of this number, from 1, of a text, without what ends it, of which the first 200 bytes, with
/// U+FFFD for what is no UTF-8; nothing where there is no such line. It takes time linear in the text.
pub fn line_at(alloc: Global, text: &[u8], line: u32) -> Result<Text, AllocError>
    ensures { IfOk result (λ t. t ≡ line_at text.now line) }
{
    let found = line_in(text, line);
    let shown = String::from_utf8_lossy(alloc, front_of(found, SHOWN_BYTES))?;
    Ok(Text::from_string(shown))
}

// The first bytes, so many at most.
fn front_of(bytes: &[u8], most: usize) -> &[u8]
    ensures { result.now ≡ take most bytes.now }
{
    &bytes[..bytes.len().min(most)]
}

fn line_in(text: &[u8], line: u32) -> &[u8]
    ensures { result.now ≡ line_in text.now line }
{
    if line == 0 {
        return &[];
    }
    first_line(after_lines(text, line - 1))
}

// What stands behind so many line feeds.
fn after_lines(text: &[u8], count: u32) -> &[u8]
    ensures { result.now ≡ after_lines count text.now }
{
    let mut left = count;
    for place in 0..text.len() {
        if left == 0 {
            return &text[place..];
        }
        if text[place] == 10 {
            left -= 1;
        }
    }
    &[]
}

// The first line, without what ends it.
fn first_line(text: &[u8]) -> &[u8]
    ensures { result.now ≡ first_line text.now }
{
    for place in 0..text.len() {
        if text[place] == 10 {
            return &text[..place];
        }
    }
    text
}
