// What each line of a record is made of: words, numbers, names and tables, each put behind what was written
// before.
ghost use Rattle.std.specs.Prelude.{◌≡◌, ◌++◌, OnOk, codes, decimal};
ghost use Rattle.play_script.specs.Texts.{names_text, spaced, spaced_number};
ghost use Rattle.record_text.specs.Texts.{counted_line, named_line, rows_text, text_line, text_lines};

use hmr_types::{ClientId, ModName, Ver};
use play_script::first_line;
use std::alloc::AllocError;

/// Puts a word.
pub(crate) fn put(out: &mut Vec<u8>, text: &str) -> Result<(), AllocError>
    ensures { OnOk result (out.new.items ≡ out.old.items ++ text.now) }
{
    out.extend_from_slice(text.as_bytes())
}

/// Puts the end of a line.
pub(crate) fn put_end(out: &mut Vec<u8>) -> Result<(), AllocError>
    ensures { OnOk result (out.new.items ≡ out.old.items ++ codes "\n") }
{
    put(out, "\n")
}

/// Puts a number in decimal.
pub(crate) fn put_number(out: &mut Vec<u8>, number: u64) -> Result<(), AllocError>
    ensures { OnOk result (out.new.items ≡ out.old.items ++ decimal number) }
{
    let mut buffer = itoa::Buffer::new();
    put(out, buffer.format(number))
}

/// Puts a name behind a space.
pub(crate) fn put_spaced(out: &mut Vec<u8>, name: &ModName) -> Result<(), AllocError>
    ensures { OnOk result (out.new.items ≡ out.old.items ++ spaced name.now) }
{
    put(out, " ")?;
    put(out, name.as_str())
}

/// Puts a number behind a space.
pub(crate) fn put_spaced_number(out: &mut Vec<u8>, number: u64) -> Result<(), AllocError>
    ensures { OnOk result (out.new.items ≡ out.old.items ++ spaced_number number) }
{
    put(out, " ")?;
    put_number(out, number)
}

/// Puts names, each behind a space.
pub(crate) fn put_names(out: &mut Vec<u8>, names: &[ModName]) -> Result<(), AllocError>
    ensures { OnOk result (out.new.items ≡ out.old.items ++ names_text names.now) }
{
    for name in names {
        put_spaced(out, name)?;
    }
    Ok(())
}

/// Puts names with their versions, each behind a space.
pub(crate) fn put_rows(out: &mut Vec<u8>, rows: &[(ModName, Ver)]) -> Result<(), AllocError>
    ensures { OnOk result (out.new.items ≡ out.old.items ++ rows_text rows.now) }
{
    for (name, version) in rows {
        put_spaced(out, name)?;
        put_spaced_number(out, *version)?;
    }
    Ok(())
}

/// Puts a line of a word and a name.
pub(crate) fn put_named(out: &mut Vec<u8>, word: &str, name: &ModName) -> Result<(), AllocError>
    ensures { OnOk result (out.new.items ≡ out.old.items ++ named_line word.now name.now) }
{
    put(out, word)?;
    put_spaced(out, name)?;
    put_end(out)
}

/// Puts a line of a word and the number of a client.
pub(crate) fn put_counted(out: &mut Vec<u8>, word: &str, client: ClientId) -> Result<(), AllocError>
    ensures { OnOk result (out.new.items ≡ out.old.items ++ counted_line word.now client) }
{
    put(out, word)?;
    put_spaced_number(out, u64::from(client))?;
    put_end(out)
}

/// Puts the lines of a text.
pub(crate) fn put_text(out: &mut Vec<u8>, text: &[u8]) -> Result<(), AllocError>
    ensures { OnOk result (out.new.items ≡ out.old.items ++ text_lines text.now) }
{
    let mut left = text;
    while let Some(first) = first_line(left) {
        put_text_line(out, first.bytes, first.ended)?;
        left = first.below;
    }
    Ok(())
}

fn put_text_line(out: &mut Vec<u8>, bytes: &[u8], ended: bool) -> Result<(), AllocError>
    ensures { OnOk result
        (out.new.items ≡ out.old.items ++ text_line (record { bytes = bytes.now; ended = ended })) }
{
    put(out, if ended { "|" } else { "~" })?;
    out.extend_from_slice(bytes)?;
    put_end(out)
}
