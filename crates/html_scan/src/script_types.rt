// What a script is, by its attributes `type` and `language`.
ghost use Rattle.std.specs.Prelude.{◌<◌, ◌^◌, length};
ghost use Rattle.html_scan.specs.Pages.{IsTag};

use crate::attributes::{find_attribute, find_value};
use crate::elements::is_one_of;
use crate::tokens::Tag;
use crate::values::attribute_value;
use std::alloc::{AllocError, Global};

/// What a script is.
#[derive(Clone, Copy, PartialEq)]
pub(crate) enum ScriptType {
    Classic,
    Module,
    ImportMap,
    /// Anything else, which a browser doesn't run.
    Data,
}

/// The JavaScript MIME types.
static JAVASCRIPT_TYPES: [&[u8]; 16] = [
    b"text/javascript",
    b"application/javascript",
    b"application/ecmascript",
    b"application/x-ecmascript",
    b"application/x-javascript",
    b"text/ecmascript",
    b"text/javascript1.0",
    b"text/javascript1.1",
    b"text/javascript1.2",
    b"text/javascript1.3",
    b"text/javascript1.4",
    b"text/javascript1.5",
    b"text/jscript",
    b"text/livescript",
    b"text/x-ecmascript",
    b"text/x-javascript",
];

/// Values of `language` that are JavaScript MIME types behind `text/`.
static JAVASCRIPT_LANGUAGES: [&[u8]; 12] = [
    b"javascript",
    b"ecmascript",
    b"javascript1.0",
    b"javascript1.1",
    b"javascript1.2",
    b"javascript1.3",
    b"javascript1.4",
    b"javascript1.5",
    b"jscript",
    b"livescript",
    b"x-ecmascript",
    b"x-javascript",
];

/// What the script of a tag is.
pub(crate) fn script_type(alloc: Global, text: &[u8], tag: Tag) -> Result<ScriptType, AllocError>
    requires tag { IsTag text.now tag.span }
    requires name { (tag.span.start < tag.name.end) × (tag.name.end < tag.span.end) }
    requires short { length text.now < 2 ^ 32 }
{
    if find_attribute(text, tag, b"type").is_none() {
        return language_type(alloc, text, tag);
    }
    match find_value(text, tag, b"type") {
        Some(value) => {
            let decoded = attribute_value(alloc, text, value)?;
            Ok(type_of(decoded.as_slice().trim_ascii()))
        }
        None => Ok(ScriptType::Classic),
    }
}

/// What a script of this type is.
fn type_of(name: &[u8]) -> ScriptType {
    if is_one_of(name, &JAVASCRIPT_TYPES) {
        ScriptType::Classic
    } else if name.eq_ignore_ascii_case(b"module") {
        ScriptType::Module
    } else if name.eq_ignore_ascii_case(b"importmap") {
        ScriptType::ImportMap
    } else {
        ScriptType::Data
    }
}

/// What a script without `type` is.
fn language_type(alloc: Global, text: &[u8], tag: Tag) -> Result<ScriptType, AllocError>
    requires tag { IsTag text.now tag.span }
    requires name { (tag.span.start < tag.name.end) × (tag.name.end < tag.span.end) }
    requires short { length text.now < 2 ^ 32 }
{
    let Some(value) = find_value(text, tag, b"language") else {
        return Ok(ScriptType::Classic);
    };
    let decoded = attribute_value(alloc, text, value)?;
    if is_one_of(&decoded, &JAVASCRIPT_LANGUAGES) {
        Ok(ScriptType::Classic)
    } else {
        Ok(ScriptType::Data)
    }
}
