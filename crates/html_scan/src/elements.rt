// Elements, as far as they matter to a scan.
ghost use Rattle.std.specs.Prelude.{◌≤◌, length};

use crate::outline::Span;

/// What a tag's name means.
#[derive(Clone, Copy, PartialEq)]
pub(crate) enum Element {
    Html,
    Head,
    Script,
    Link,
    Template,
    /// An element whose content is text up to its end tag.
    RawText,
    /// `plaintext`, behind which all is text.
    PlainText,
    Svg,
    Math,
    /// An element whose tags end foreign content.
    Breakout,
    Other,
}

/// Elements whose content is text: without character references, or with them. Scripts run, so `noscript` is
/// one.
static RAW_TEXTS: [&[u8]; 8] = [
    b"style",
    b"title",
    b"textarea",
    b"noscript",
    b"iframe",
    b"noframes",
    b"noembed",
    b"xmp",
];

/// Elements that can't stand in foreign content.
static BREAKOUTS: [&[u8]; 43] = [
    b"b",
    b"big",
    b"blockquote",
    b"body",
    b"br",
    b"center",
    b"code",
    b"dd",
    b"div",
    b"dl",
    b"dt",
    b"em",
    b"embed",
    b"h1",
    b"h2",
    b"h3",
    b"h4",
    b"h5",
    b"h6",
    b"hr",
    b"i",
    b"img",
    b"li",
    b"listing",
    b"menu",
    b"meta",
    b"nobr",
    b"ol",
    b"p",
    b"pre",
    b"ruby",
    b"s",
    b"small",
    b"span",
    b"strong",
    b"strike",
    b"sub",
    b"sup",
    b"table",
    b"tt",
    b"u",
    b"ul",
    b"var",
];

/// Whether the name is one of these, in any letter case.
pub(crate) fn is_one_of(name: &[u8], words: &[&[u8]]) -> bool {
    for word in words {
        if name.eq_ignore_ascii_case(word) {
            return true;
        }
    }
    false
}

/// What the name at a span means.
pub(crate) fn element_of(text: &[u8], name: Span) -> Element
    requires rises { name.start ≤ name.end }
    requires within { name.end ≤ length text.now }
{
    let name = &text[name.start as usize..name.end as usize];
    if name.eq_ignore_ascii_case(b"script") {
        Element::Script
    } else if name.eq_ignore_ascii_case(b"link") {
        Element::Link
    } else if name.eq_ignore_ascii_case(b"html") {
        Element::Html
    } else if name.eq_ignore_ascii_case(b"head") {
        Element::Head
    } else if name.eq_ignore_ascii_case(b"template") {
        Element::Template
    } else if name.eq_ignore_ascii_case(b"svg") {
        Element::Svg
    } else if name.eq_ignore_ascii_case(b"math") {
        Element::Math
    } else if name.eq_ignore_ascii_case(b"plaintext") {
        Element::PlainText
    } else if is_one_of(name, &RAW_TEXTS) {
        Element::RawText
    } else if is_one_of(name, &BREAKOUTS) {
        Element::Breakout
    } else {
        Element::Other
    }
}
