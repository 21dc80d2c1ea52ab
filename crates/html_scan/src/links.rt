// Stylesheets, by the attributes of their `<link>`.
ghost use Rattle.std.specs.Prelude.{◌<◌, ◌^◌, IfOk, IfSome, length};
ghost use Rattle.html_scan.specs.Pages.{IsAddress, IsTag};

use crate::attributes::{find_attribute, find_value};
use crate::bytes::is_space;
use crate::outline::Attribute;
use crate::tokens::Tag;
use crate::values::attribute_value;
use std::alloc::{AllocError, Global};

/// The address of the stylesheet that a `<link>` loads, if it loads one.
pub(crate) fn stylesheet(
    alloc: Global,
    text: &[u8],
    tag: Tag,
) -> Result<Option<Attribute>, AllocError>
    requires tag { IsTag text.now tag.span }
    requires name { (tag.span.start < tag.name.end) × (tag.name.end < tag.span.end) }
    requires short { length text.now < 2 ^ 32 }
    ensures address { IfOk result (λ r. IfSome r (λ a. IsAddress text.now tag.span a)) }
{
    let is_loaded = is_stylesheet(alloc, text, tag)?
        && is_css(alloc, text, tag)?
        && find_attribute(text, tag, b"disabled").is_none();
    if !is_loaded {
        return Ok(None);
    }
    Ok(find_value(text, tag, b"href"))
}

/// Whether the words of `rel` have `stylesheet`, and not `alternate`.
fn is_stylesheet(alloc: Global, text: &[u8], tag: Tag) -> Result<bool, AllocError>
    requires tag { IsTag text.now tag.span }
    requires name { (tag.span.start < tag.name.end) × (tag.name.end < tag.span.end) }
    requires short { length text.now < 2 ^ 32 }
{
    let Some(value) = find_value(text, tag, b"rel") else {
        return Ok(false);
    };
    let words = attribute_value(alloc, text, value)?;
    Ok(has_word(&words, b"stylesheet") && !has_word(&words, b"alternate"))
}

/// Whether the attribute `type` lets a stylesheet be CSS: it is absent, empty, or `text/css` with or without
/// parameters.
fn is_css(alloc: Global, text: &[u8], tag: Tag) -> Result<bool, AllocError>
    requires tag { IsTag text.now tag.span }
    requires name { (tag.span.start < tag.name.end) × (tag.name.end < tag.span.end) }
    requires short { length text.now < 2 ^ 32 }
{
    let Some(value) = find_value(text, tag, b"type") else {
        return Ok(true);
    };
    let decoded = attribute_value(alloc, text, value)?;
    Ok(is_css_type(&decoded))
}

/// Whether the part of a MIME type before its parameters is that of CSS.
fn is_css_type(name: &[u8]) -> bool {
    match name.split(|byte| *byte == b';').next() {
        Some(essence) => essence.trim_ascii().eq_ignore_ascii_case(b"text/css"),
        None => false,
    }
}

/// Whether a word is one of those between white space, in any letter case.
fn has_word(words: &[u8], word: &[u8]) -> bool {
    for each in words.split(|byte| is_space(*byte)) {
        if each.eq_ignore_ascii_case(word) {
            return true;
        }
    }
    false
}
