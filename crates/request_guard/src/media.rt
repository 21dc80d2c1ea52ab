// Media types by the endings of names.
ghost use Rattle.std.specs.Prelude.{◌≡◌};
ghost use Rattle.request_guard.specs.Media.{ending_of, font_type, image_type, media_type, other_type, type_of};

use crate::hosts::same_letters;

/// The media type of a file with this name, which may have folders before it: by what stands behind the last
/// dot of its last part, in any case of letters, and `application/octet-stream` where that is nothing known.
pub fn media_type(name: &[u8]) -> &'static str
    ensures { result.now ≡ media_type name.now }
{
    type_of(ending_of(name))
}

// What stands behind the last dot of the last part.
fn ending_of(name: &[u8]) -> &[u8]
    ensures { result.now ≡ ending_of name.now }
{
    let mut found = &name[..0];
    for at in 0..name.len() {
        match name[at] {
            b'.' => found = &name[at + 1..],
            b'/' => found = &name[..0],
            _ => {}
        }
    }
    found
}

fn type_of(ending: &[u8]) -> &'static str
    ensures { result.now ≡ type_of ending.now }
{
    if same_letters(ending, b"html") || same_letters(ending, b"htm") {
        "text/html; charset=utf-8"
    } else if same_letters(ending, b"js") || same_letters(ending, b"mjs") {
        "text/javascript; charset=utf-8"
    } else if same_letters(ending, b"css") {
        "text/css; charset=utf-8"
    } else if same_letters(ending, b"json") || same_letters(ending, b"map") {
        "application/json"
    } else if same_letters(ending, b"txt") {
        "text/plain; charset=utf-8"
    } else if same_letters(ending, b"xml") {
        "text/xml; charset=utf-8"
    } else {
        image_type(ending)
    }
}

fn image_type(ending: &[u8]) -> &'static str
    ensures { result.now ≡ image_type ending.now }
{
    if same_letters(ending, b"svg") {
        "image/svg+xml"
    } else if same_letters(ending, b"png") {
        "image/png"
    } else if same_letters(ending, b"jpg") || same_letters(ending, b"jpeg") {
        "image/jpeg"
    } else if same_letters(ending, b"gif") {
        "image/gif"
    } else if same_letters(ending, b"webp") {
        "image/webp"
    } else if same_letters(ending, b"avif") {
        "image/avif"
    } else if same_letters(ending, b"ico") {
        "image/x-icon"
    } else {
        font_type(ending)
    }
}

fn font_type(ending: &[u8]) -> &'static str
    ensures { result.now ≡ font_type ending.now }
{
    if same_letters(ending, b"woff2") {
        "font/woff2"
    } else if same_letters(ending, b"woff") {
        "font/woff"
    } else if same_letters(ending, b"ttf") {
        "font/ttf"
    } else if same_letters(ending, b"otf") {
        "font/otf"
    } else {
        other_type(ending)
    }
}

fn other_type(ending: &[u8]) -> &'static str
    ensures { result.now ≡ other_type ending.now }
{
    if same_letters(ending, b"wasm") {
        "application/wasm"
    } else if same_letters(ending, b"pdf") {
        "application/pdf"
    } else if same_letters(ending, b"webmanifest") {
        "application/manifest+json"
    } else if same_letters(ending, b"mp3") {
        "audio/mpeg"
    } else if same_letters(ending, b"mp4") {
        "video/mp4"
    } else if same_letters(ending, b"webm") {
        "video/webm"
    } else {
        "application/octet-stream"
    }
}
