// What every line is made of: words, numbers, names, and texts with their escapes, each put behind
// what was written before.
ghost use Rattle.std.specs.Prelude.{◌≡◌, ◌++◌, OnOk, decimal};
ghost use Rattle.std.specs.List.{flat_map};
ghost use Rattle.std.specs.Fmt.{signed_decimal};
ghost use Rattle.hmr_types.specs.Event.{colon, with_mark};
ghost use Rattle.hmr_types.specs.ModName.{slash};
ghost use Rattle.play_script.specs.Texts.{event_text, names_text, spaced, spaced_number};
ghost use Rattle.play_text.specs.Texts.{of_client, escaped, quoted, quoted_byte};

use hmr_types::{ModName, event_path};
use std::alloc::AllocError;

/// Puts a word.
pub fn put(out: &mut Vec<u8>, text: &str) -> Result<(), AllocError>
    ensures { OnOk result (out.new.items ≡ out.old.items ++ text.now) }
{
    out.extend_from_slice(text.as_bytes())
}

/// Puts a number in decimal.
pub fn put_number(out: &mut Vec<u8>, number: u64) -> Result<(), AllocError>
    ensures { OnOk result (out.new.items ≡ out.old.items ++ decimal number) }
{
    let mut buffer = itoa::Buffer::new();
    put(out, buffer.format(number))
}

/// Puts a number in decimal, with `-` before it where it is negative.
pub fn put_signed(out: &mut Vec<u8>, number: i64) -> Result<(), AllocError>
    ensures { OnOk result (out.new.items ≡ out.old.items ++ signed_decimal number) }
{
    let mut buffer = itoa::Buffer::new();
    put(out, buffer.format(number))
}

/// Puts the number of a client and a word.
pub fn put_of(out: &mut Vec<u8>, client: u32, word: &str) -> Result<(), AllocError>
    ensures { OnOk result (out.new.items ≡ out.old.items ++ of_client client word.now) }
{
    put_number(out, u64::from(client))?;
    put(out, word)
}

/// Puts a word behind a space.
pub fn put_spaced(out: &mut Vec<u8>, text: &str) -> Result<(), AllocError>
    ensures { OnOk result (out.new.items ≡ out.old.items ++ spaced text.now) }
{
    put(out, " ")?;
    put(out, text)
}

/// Puts a number behind a space.
pub fn put_spaced_number(out: &mut Vec<u8>, number: u64) -> Result<(), AllocError>
    ensures { OnOk result (out.new.items ≡ out.old.items ++ spaced_number number) }
{
    put(out, " ")?;
    put_number(out, number)
}

/// Puts names, each behind a space.
pub fn put_names(out: &mut Vec<u8>, names: &[ModName]) -> Result<(), AllocError>
    ensures { OnOk result (out.new.items ≡ out.old.items ++ names_text names.now) }
{
    for name in names {
        put_spaced(out, name.as_str())?;
    }
    Ok(())
}

/// Puts an event, by the module that stands for it: its name, with `:` for each `/`.
pub fn put_event(out: &mut Vec<u8>, name: &ModName) -> Result<(), AllocError>
    ensures { OnOk result (out.new.items ≡ out.old.items ++ event_text name.now) }
{
    match event_path(name.as_bytes()) {
        Some(path) => put_with_colons(out, path),
        None => put(out, name.as_str()),
    }
}

fn put_with_colons(out: &mut Vec<u8>, path: &[u8]) -> Result<(), AllocError>
    ensures { OnOk result (out.new.items ≡ out.old.items ++ with_mark slash colon path.now) }
{
    for byte in path {
        out.push(if *byte == b'/' { b':' } else { *byte })?;
    }
    Ok(())
}

/// Puts a text on one line: `\`, LF and CR as escapes.
pub fn put_escaped(out: &mut Vec<u8>, text: &str) -> Result<(), AllocError>
    ensures { OnOk result (out.new.items ≡ out.old.items ++ flat_map escaped text.now) }
{
    put_escaped_bytes(out, text.as_bytes())
}

fn put_escaped_bytes(out: &mut Vec<u8>, text: &[u8]) -> Result<(), AllocError>
    ensures { OnOk result (out.new.items ≡ out.old.items ++ flat_map escaped text.now) }
{
    for byte in text {
        put_escape(out, *byte)?;
    }
    Ok(())
}

fn put_escape(out: &mut Vec<u8>, byte: u8) -> Result<(), AllocError>
    ensures { OnOk result (out.new.items ≡ out.old.items ++ escaped byte) }
{
    match byte {
        b'\\' => put(out, "\\\\"),
        b'\n' => put(out, "\\n"),
        b'\r' => put(out, "\\r"),
        _ => {
            out.push(byte)?;
            Ok(())
        }
    }
}

/// Puts a text in double quotes, with the escapes of a canonical text literal.
pub fn put_quoted(out: &mut Vec<u8>, text: &str) -> Result<(), AllocError>
    ensures { OnOk result (out.new.items ≡ out.old.items ++ quoted text.now) }
{
    put(out, "\"")?;
    put_quoted_bytes(out, text.as_bytes())?;
    put(out, "\"")
}

fn put_quoted_bytes(out: &mut Vec<u8>, text: &[u8]) -> Result<(), AllocError>
    ensures { OnOk result (out.new.items ≡ out.old.items ++ flat_map quoted_byte text.now) }
{
    for byte in text {
        put_quoted_byte(out, *byte)?;
    }
    Ok(())
}

fn put_quoted_byte(out: &mut Vec<u8>, byte: u8) -> Result<(), AllocError>
    ensures { OnOk result (out.new.items ≡ out.old.items ++ quoted_byte byte) }
{
    match byte {
        b'\\' => put(out, "\\\\"),
        b'"' => put(out, "\\\""),
        b'\n' => put(out, "\\n"),
        b'\t' => put(out, "\\t"),
        b'\r' => put(out, "\\r"),
        _ => {
            out.push(byte)?;
            Ok(())
        }
    }
}
