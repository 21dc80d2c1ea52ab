// What lines are made of: words and numbers, each put behind what was written before.
ghost use Rattle.std.specs.Prelude.{◌≡◌, ◌++◌, OnOk, decimal};
ghost use Rattle.std.specs.List.{flat_map};
ghost use Rattle.live_lines.specs.Texts.{clock_text, on, off, shown_byte, two_digits};

use crate::{Clock, Style};
use std::alloc::AllocError;

/// Puts a text.
pub(crate) fn put(out: &mut Vec<u8>, text: &str) -> Result<(), AllocError>
    ensures { OnOk result (out.new.items ≡ out.old.items ++ text.now) }
{
    out.extend_from_slice(text.as_bytes())
}

/// Puts a number in decimal.
pub(crate) fn put_number(out: &mut Vec<u8>, number: u64) -> Result<(), AllocError>
    ensures { OnOk result (out.new.items ≡ out.old.items ++ decimal number) }
{
    let mut buffer = itoa::Buffer::new();
    put(out, buffer.format(number))
}

/// Puts two texts.
pub(crate) fn put_both(out: &mut Vec<u8>, first: &str, second: &str) -> Result<(), AllocError>
    ensures { OnOk result (out.new.items ≡ out.old.items ++ (first.now ++ second.now)) }
{
    put(out, first)?;
    put(out, second)
}

/// Puts a word, a text and another word.
pub(crate) fn put_between(
    out: &mut Vec<u8>,
    before: &str,
    text: &str,
    after: &str,
) -> Result<(), AllocError>
    ensures { OnOk result (out.new.items ≡ out.old.items ++ (before.now ++ text.now ++ after.now)) }
{
    put(out, before)?;
    put(out, text)?;
    put(out, after)
}

/// Puts a number and a word.
pub(crate) fn put_number_and(out: &mut Vec<u8>, number: u64, after: &str) -> Result<(), AllocError>
    ensures { OnOk result (out.new.items ≡ out.old.items ++ (decimal number ++ after.now)) }
{
    put_number(out, number)?;
    put(out, after)
}

/// Puts a word, a number and another word.
pub(crate) fn put_counted(
    out: &mut Vec<u8>,
    before: &str,
    number: u64,
    after: &str,
) -> Result<(), AllocError>
    ensures { OnOk result (out.new.items ≡ out.old.items ++ (before.now ++ decimal number ++ after.now)) }
{
    put(out, before)?;
    put_number(out, number)?;
    put(out, after)
}

/// Begins a colour, where there are colours: `code` is its number at a terminal.
pub(crate) fn put_on(out: &mut Vec<u8>, style: Style, code: &str) -> Result<(), AllocError>
    ensures { OnOk result (out.new.items ≡ out.old.items ++ on style code.now) }
{
    match style {
        Style::Plain => Ok(()),
        Style::Coloured => put_between(out, "\x1b[", code, "m"),
    }
}

/// Ends a colour.
pub(crate) fn put_off(out: &mut Vec<u8>, style: Style) -> Result<(), AllocError>
    ensures { OnOk result (out.new.items ≡ out.old.items ++ off style) }
{
    match style {
        Style::Plain => Ok(()),
        Style::Coloured => put(out, "\x1b[0m"),
    }
}

/// Puts a time of day.
pub(crate) fn put_clock(out: &mut Vec<u8>, clock: Clock) -> Result<(), AllocError>
    ensures { OnOk result (out.new.items ≡ out.old.items ++ clock_text clock) }
{
    put_two(out, clock.hour)?;
    put(out, ":")?;
    put_two(out, clock.minute)?;
    put(out, ":")?;
    put_two(out, clock.second)
}

fn put_two(out: &mut Vec<u8>, number: u8) -> Result<(), AllocError>
    ensures { OnOk result (out.new.items ≡ out.old.items ++ two_digits number) }
{
    if number < 10 {
        put(out, "0")?;
    }
    put_number(out, u64::from(number))
}

/// Puts a text that may be any, with `?` for each byte at which a terminal would do anything but show it.
pub(crate) fn put_shown(out: &mut Vec<u8>, text: &str) -> Result<(), AllocError>
    ensures { OnOk result (out.new.items ≡ out.old.items ++ flat_map shown_byte text.now) }
{
    put_shown_bytes(out, text.as_bytes())
}

fn put_shown_bytes(out: &mut Vec<u8>, text: &[u8]) -> Result<(), AllocError>
    ensures { OnOk result (out.new.items ≡ out.old.items ++ flat_map shown_byte text.now) }
{
    for byte in text {
        put_shown_byte(out, *byte)?;
    }
    Ok(())
}

fn put_shown_byte(out: &mut Vec<u8>, byte: u8) -> Result<(), AllocError>
    ensures { OnOk result (out.new.items ≡ out.old.items ++ shown_byte byte) }
{
    let shown = if byte == 9 || 32 <= byte && byte != 127 {
        byte
    } else {
        b'?'
    };
    out.push(shown)?;
    Ok(())
}
