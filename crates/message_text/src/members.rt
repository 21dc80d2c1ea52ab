// Members of an object and the lists in them, as they are put, token by token.
ghost use Rattle.std.specs.Prelude.{◌≡◌, ◌++◌, [], ◌∷◌, OnOk, decimal, map};
ghost use Rattle.serde_json.specs.Data.{string};
ghost use Rattle.json.specs.Token as token;
ghost use Rattle.message_text.specs.Values.{item_tokens, or_null, row, tokens_of};

use hmr_types::{ModName, Text, Ver};
use json::Writer;
use std::alloc::AllocError;

/// Puts a key and a text.
pub(crate) fn put_text(out: &mut Writer, key: &str, text: &str) -> Result<(), AllocError>
    ensures tokens { OnOk result
        (out.new.tokens ≡ out.old.tokens ++ token.key key.now ∷ token.string text.now ∷ []) }
    ensures before { out.new.before ≡ out.old.before }
{
    out.key(key)?;
    out.string(text)
}

/// Puts a key and a number.
pub(crate) fn put_number(out: &mut Writer, key: &str, number: u64) -> Result<(), AllocError>
    ensures tokens { OnOk result
        (out.new.tokens ≡ out.old.tokens ++ token.key key.now ∷ token.number (decimal number) ∷ []) }
    ensures before { out.new.before ≡ out.old.before }
{
    out.key(key)?;
    out.u64(number)
}

/// Puts a name, or null.
pub(crate) fn put_name_or_null(out: &mut Writer, name: &Option<ModName>) -> Result<(), AllocError>
    ensures tokens { OnOk result (out.new.tokens ≡ out.old.tokens ++ tokens_of (or_null name.now)) }
    ensures before { out.new.before ≡ out.old.before }
{
    match name {
        Some(name) => out.string(name.as_str()),
        None => out.null(),
    }
}

/// Puts a text, or null.
pub(crate) fn put_text_or_null(out: &mut Writer, text: &Option<Text>) -> Result<(), AllocError>
    ensures tokens { OnOk result (out.new.tokens ≡ out.old.tokens ++ tokens_of (or_null text.now)) }
    ensures before { out.new.before ≡ out.old.before }
{
    match text {
        Some(text) => out.string(text.as_str()),
        None => out.null(),
    }
}

/// Puts the names of a list that has begun, and its end.
pub(crate) fn put_names(out: &mut Writer, names: &[ModName]) -> Result<(), AllocError>
    ensures tokens { OnOk result (out.new.tokens ≡ out.old.tokens ++ item_tokens (map string names.now)) }
    ensures before { out.new.before ≡ out.old.before }
{
    for name in names {
        out.string(name.as_str())?;
    }
    out.end_array()
}

fn put_row(out: &mut Writer, name: &ModName, version: Ver) -> Result<(), AllocError>
    ensures tokens { OnOk result
        (out.new.tokens ≡ out.old.tokens ++ tokens_of (row (name.now, version))) }
    ensures before { out.new.before ≡ out.old.before }
{
    out.begin_array()?;
    out.string(name.as_str())?;
    out.u64(version)?;
    out.end_array()
}

/// Puts the rows of a list that has begun, each a list of a name and a version, and its end.
pub(crate) fn put_rows(out: &mut Writer, rows: &[(ModName, Ver)]) -> Result<(), AllocError>
    ensures tokens { OnOk result (out.new.tokens ≡ out.old.tokens ++ item_tokens (map row rows.now)) }
    ensures before { out.new.before ≡ out.old.before }
{
    for (name, version) in rows {
        put_row(out, name, *version)?;
    }
    out.end_array()
}
