// What every piece is made of: words, numbers, and texts in quotes, each put behind what was written
// before.
ghost use Rattle.std.specs.Prelude.{◌≡◌, ◌==◌, ◌++◌, OnOk, decimal, if◌then◌else◌};
ghost use Rattle.hmr_types.specs.Event.{colon, with_mark};
ghost use Rattle.hmr_types.specs.ModName.{slash};
ghost use Rattle.module_semantics.specs.Canon.{all_escaped, escaped, quoted};

use std::alloc::AllocError;

/// Puts a word.
pub fn put(out: &mut Vec<u8>, text: &str) -> Result<(), AllocError>
    ensures { OnOk result (out.new.items ≡ out.old.items ++ text.now) }
{
    out.extend_from_slice(text.as_bytes())
}

/// Puts two words.
pub fn put_both(out: &mut Vec<u8>, first: &str, second: &str) -> Result<(), AllocError>
    ensures { OnOk result (out.new.items ≡ out.old.items ++ (first.now ++ second.now)) }
{
    put(out, first)?;
    put(out, second)
}

/// Puts a number in decimal.
pub fn put_number(out: &mut Vec<u8>, number: u64) -> Result<(), AllocError>
    ensures { OnOk result (out.new.items ≡ out.old.items ++ decimal number) }
{
    let mut buffer = itoa::Buffer::new();
    put(out, buffer.format(number))
}

/// Puts a text in double quotes, with its escapes.
pub fn put_quoted(out: &mut Vec<u8>, text: &str) -> Result<(), AllocError>
    ensures { OnOk result (out.new.items ≡ out.old.items ++ quoted text.now) }
{
    put(out, "\"")?;
    put_escaped(out, text.as_bytes())?;
    put(out, "\"")
}

/// Puts the name of an event in double quotes: its path with a `:` for each `/`.
pub fn put_event(out: &mut Vec<u8>, path: &[u8]) -> Result<(), AllocError>
    ensures { OnOk result (out.new.items ≡ out.old.items ++ quoted (with_mark slash colon path.now)) }
{
    put(out, "\"")?;
    put_path(out, path)?;
    put(out, "\"")
}

fn put_path(out: &mut Vec<u8>, path: &[u8]) -> Result<(), AllocError>
    ensures { OnOk result (out.new.items ≡ out.old.items ++ all_escaped (with_mark slash colon path.now)) }
{
    for byte in path {
        put_escape(out, name_byte(*byte))?;
    }
    Ok(())
}

/// The byte of the name of an event that stands for one of its path.
fn name_byte(byte: u8) -> u8
    ensures { result ≡ (if byte == slash then colon else byte) }
{
    if byte == b'/' { b':' } else { byte }
}

fn put_escaped(out: &mut Vec<u8>, text: &[u8]) -> Result<(), AllocError>
    ensures { OnOk result (out.new.items ≡ out.old.items ++ all_escaped text.now) }
{
    for byte in text {
        put_escape(out, *byte)?;
    }
    Ok(())
}

fn put_escape(out: &mut Vec<u8>, byte: u8) -> Result<(), AllocError>
    ensures { OnOk result (out.new.items ≡ out.old.items ++ escaped byte) }
{
    match byte {
        b'\\' => put(out, "\\\\"),
        b'"' => put(out, "\\\""),
        b'\n' => put(out, "\\n"),
        b'\t' => put(out, "\\t"),
        b'\r' => put(out, "\\r"),
        _ => {
            out.push(byte)?;
            Ok(())
        }
    }
}
