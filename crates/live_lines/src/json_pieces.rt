// What JSON objects are made of: strings, keys with their values, and lists.
ghost use Rattle.std.specs.Prelude.{◌≡◌, ◌++◌, ◌<◌, OnOk, codes, decimal, ℕ, List};
ghost use Rattle.std.specs.List.{flat_map};
ghost use Rattle.live_lines.specs.Objects.{names_field, names_value, null_field, pairs_field, rows_field};
ghost use Rattle.live_lines.specs.Objects.{stale_field, versions_value};
ghost use Rattle.live_lines.specs.Objects.{control_text, hex_digit, items_text, list_field, number_field};
ghost use Rattle.live_lines.specs.Objects.{pair_value, row_value, stale_value, string_byte, string_or_null};
ghost use Rattle.live_lines.specs.Objects.{string_text, text_field};

use crate::StaleBinding;
use crate::pieces::{put, put_between, put_counted};
use hmr_types::{ModName, Text, Ver};
use std::alloc::AllocError;

/// Puts a text as a string.
pub(crate) fn put_string(out: &mut Vec<u8>, text: &str) -> Result<(), AllocError>
    ensures { OnOk result (out.new.items ≡ out.old.items ++ string_text text.now) }
{
    put(out, "\"")?;
    put_string_bytes(out, text.as_bytes())?;
    put(out, "\"")
}

fn put_string_bytes(out: &mut Vec<u8>, text: &[u8]) -> Result<(), AllocError>
    ensures { OnOk result (out.new.items ≡ out.old.items ++ flat_map string_byte text.now) }
{
    for byte in text {
        put_string_byte(out, *byte)?;
    }
    Ok(())
}

fn put_string_byte(out: &mut Vec<u8>, byte: u8) -> Result<(), AllocError>
    ensures { OnOk result (out.new.items ≡ out.old.items ++ string_byte byte) }
{
    if byte == 34 {
        put(out, "\\\"")
    } else if byte == 92 {
        put(out, "\\\\")
    } else if byte < 32 {
        put_control(out, byte)
    } else {
        out.push(byte)?;
        Ok(())
    }
}

// Puts a control byte as an escape.
fn put_control(out: &mut Vec<u8>, byte: u8) -> Result<(), AllocError>
    requires control { byte < 32 }
    ensures { OnOk result (out.new.items ≡ out.old.items ++ control_text byte) }
{
    if byte < 16 {
        put(out, "\\u000")?;
        out.push(hex_digit(byte))?;
    } else {
        put(out, "\\u001")?;
        out.push(hex_digit(byte - 16))?;
    }
    Ok(())
}

fn hex_digit(digit: u8) -> u8
    requires digit { digit < 16 }
    ensures { result ≡ hex_digit digit }
{
    if digit < 10 { 48 + digit } else { 87 + digit }
}

/// Puts a key and its text.
pub(crate) fn put_text_field(out: &mut Vec<u8>, key: &str, text: &str) -> Result<(), AllocError>
    ensures { OnOk result (out.new.items ≡ out.old.items ++ text_field key.now text.now) }
{
    put_between(out, ",\"", key, "\":")?;
    put_string(out, text)
}

/// Puts a key and its number.
pub(crate) fn put_number_field(out: &mut Vec<u8>, key: &str, number: u64) -> Result<(), AllocError>
    ensures { OnOk result (out.new.items ≡ out.old.items ++ number_field key.now number) }
{
    put_between(out, ",\"", key, "\":")?;
    put_counted(out, "", number, "")
}

/// Puts a key and a text that may not be there.
pub(crate) fn put_null_text_field(
    out: &mut Vec<u8>,
    key: &str,
    text: &Option<Text>,
) -> Result<(), AllocError>
    ensures { OnOk result (out.new.items ≡ out.old.items ++ null_field key.now text.now) }
{
    put_between(out, ",\"", key, "\":")?;
    put_text_or_null(out, text)
}

/// Puts a key and a name that may not be there.
pub(crate) fn put_null_name_field(
    out: &mut Vec<u8>,
    key: &str,
    name: &Option<ModName>,
) -> Result<(), AllocError>
    ensures { OnOk result (out.new.items ≡ out.old.items ++ null_field key.now name.now) }
{
    put_between(out, ",\"", key, "\":")?;
    put_name_or_null(out, name)
}

// Puts a text as a string, null for none.
fn put_text_or_null(out: &mut Vec<u8>, text: &Option<Text>) -> Result<(), AllocError>
    ensures { OnOk result (out.new.items ≡ out.old.items ++ string_or_null text.now) }
{
    match text {
        Some(text) => put_string(out, text.as_str()),
        None => put(out, "null"),
    }
}

// Puts a name as a string, null for none.
fn put_name_or_null(out: &mut Vec<u8>, name: &Option<ModName>) -> Result<(), AllocError>
    ensures { OnOk result (out.new.items ≡ out.old.items ++ string_or_null name.now) }
{
    match name {
        Some(name) => put_string(out, name.as_str()),
        None => put(out, "null"),
    }
}

/// What has a value of JSON.
pub(crate) trait JsonItem {
    ghost value: { Self → List ℕ };

    /// Puts its value behind others.
    fn put_value(&self, out: &mut Vec<u8>) -> Result<(), AllocError>
        ensures { OnOk result (out.new.items ≡ out.old.items ++ value self.now) };
}

impl JsonItem for ModName {
    ghost value = { string_text };

    fn put_value(&self, out: &mut Vec<u8>) -> Result<(), AllocError> {
        put_string(out, self.as_str())
    }
}

impl JsonItem for (ModName, Ver) {
    ghost value = { row_value };

    fn put_value(&self, out: &mut Vec<u8>) -> Result<(), AllocError> {
        put(out, "[")?;
        put_string(out, self.0.as_str())?;
        put_counted(out, ",", self.1, "]")
    }
}

impl JsonItem for (ModName, ModName) {
    ghost value = { pair_value };

    fn put_value(&self, out: &mut Vec<u8>) -> Result<(), AllocError> {
        put(out, "{\"by\":")?;
        put_string(out, self.0.as_str())?;
        put_text_field(out, "accepted", self.1.as_str())?;
        put(out, "}")
    }
}

impl JsonItem for StaleBinding {
    ghost value = { stale_value };

    fn put_value(&self, out: &mut Vec<u8>) -> Result<(), AllocError> {
        put_importer(out, self)?;
        put_names(out, self)?;
        put_versions(out, self)
    }
}

fn put_importer(out: &mut Vec<u8>, binding: &StaleBinding) -> Result<(), AllocError>
    ensures { OnOk result (out.new.items
        ≡ out.old.items ++ (codes "{\"importer\":" ++ string_text binding.now.importer)) }
{
    put(out, "{\"importer\":")?;
    put_string(out, binding.importer.as_str())
}

fn put_names(out: &mut Vec<u8>, binding: &StaleBinding) -> Result<(), AllocError>
    ensures { OnOk result (out.new.items ≡ out.old.items ++ names_value binding.now) }
{
    put_text_field(out, "imported", binding.imported.as_str())?;
    put_text_field(out, "name", binding.name.as_str())
}

fn put_versions(out: &mut Vec<u8>, binding: &StaleBinding) -> Result<(), AllocError>
    ensures { OnOk result (out.new.items ≡ out.old.items ++ versions_value binding.now) }
{
    put_number_field(out, "linked", binding.linked)?;
    put_number_field(out, "live", binding.live)?;
    put(out, "}")
}

/// Puts a key and a list of names.
pub(crate) fn put_names_field(
    out: &mut Vec<u8>,
    key: &str,
    names: &[ModName],
) -> Result<(), AllocError>
    ensures { OnOk result (out.new.items ≡ out.old.items ++ names_field key.now names.now) }
{
    put_list_field(out, key, names)
}

/// Puts a key and a list of modules with their versions.
pub(crate) fn put_rows_field(
    out: &mut Vec<u8>,
    key: &str,
    rows: &[(ModName, Ver)],
) -> Result<(), AllocError>
    ensures { OnOk result (out.new.items ≡ out.old.items ++ rows_field key.now rows.now) }
{
    put_list_field(out, key, rows)
}

/// Puts a key and a list of who accepted what.
pub(crate) fn put_pairs_field(
    out: &mut Vec<u8>,
    key: &str,
    pairs: &[(ModName, ModName)],
) -> Result<(), AllocError>
    ensures { OnOk result (out.new.items ≡ out.old.items ++ pairs_field key.now pairs.now) }
{
    put_list_field(out, key, pairs)
}

/// Puts a key and a list of stale bindings.
pub(crate) fn put_stale_field(
    out: &mut Vec<u8>,
    key: &str,
    bindings: &[StaleBinding],
) -> Result<(), AllocError>
    ensures { OnOk result (out.new.items ≡ out.old.items ++ stale_field key.now bindings.now) }
{
    put_list_field(out, key, bindings)
}

// Puts a key and its list.
fn put_list_field<T: JsonItem>(out: &mut Vec<u8>, key: &str, items: &[T]) -> Result<(), AllocError>
    ensures { OnOk result (out.new.items ≡ out.old.items ++ list_field T.value key.now items.now) }
{
    put_between(out, ",\"", key, "\":")?;
    put(out, "[")?;
    put_items(out, items)?;
    put(out, "]")
}

fn put_items<T: JsonItem>(out: &mut Vec<u8>, items: &[T]) -> Result<(), AllocError>
    ensures { OnOk result (out.new.items ≡ out.old.items ++ items_text T.value items.now) }
{
    match items {
        [] => Ok(()),
        [first, more @ ..] => {
            first.put_value(out)?;
            put_more_items(out, more)
        }
    }
}

fn put_more_items<T: JsonItem>(out: &mut Vec<u8>, items: &[T]) -> Result<(), AllocError>
    ensures { OnOk result
        (out.new.items ≡ out.old.items ++ flat_map (λ y. codes "," ++ T.value y) items.now) }
{
    for item in items {
        put(out, ",")?;
        item.put_value(out)?;
    }
    Ok(())
}
