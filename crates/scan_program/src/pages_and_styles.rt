// The lines of an outline of a page or of a stylesheet.
use crate::lines::{write_bytes, write_place};
use css_scan::{StyleImport, scan_style};
use html_scan::{Attribute, PageItem, PageOutline, PagePart, Span, attribute_value, scan_page};
use std::alloc::Global;
use std::io::{self, Write};

/// Writes what loads something: what it is, and its address as a browser reads it.
fn write_address<W: Write>(
    alloc: Global,
    out: &mut W,
    text: &[u8],
    words: &str,
    address: Attribute,
) -> io::Result<()> {
    write!(out, "{words} ")?;
    match attribute_value(alloc, text, address) {
        Ok(value) => out.write_all(&value)?,
        Err(_) => write!(out, "out of memory")?,
    }
    writeln!(out)
}

/// Writes what holds something: what it is, and how long its content is.
fn write_content<W: Write>(out: &mut W, words: &str, content: Span) -> io::Result<()> {
    let length = content.end.saturating_sub(content.start);
    writeln!(out, "{words} of {length} bytes")
}

/// Writes a line for a tag.
fn write_item<W: Write>(
    alloc: Global,
    out: &mut W,
    text: &[u8],
    item: &PageItem,
) -> io::Result<()> {
    write_place(out, text, item.tag.start)?;
    match item.part {
        PagePart::ModuleScript(address) => write_address(
            alloc,
            out,
            text,
            "module script",
            address,
        ),
        PagePart::ClassicScript(address) => write_address(
            alloc,
            out,
            text,
            "classic script",
            address,
        ),
        PagePart::Stylesheet(address) => write_address(alloc, out, text, "stylesheet", address),
        PagePart::InlineModule(content) => write_content(out, "inline module", content),
        PagePart::ImportMap(content) => write_content(out, "import map", content),
    }
}

/// Writes the lines of an outline of a page.
fn write_found<W: Write>(
    alloc: Global,
    out: &mut W,
    text: &[u8],
    page: &PageOutline,
) -> io::Result<()> {
    for item in &page.items {
        write_item(alloc, out, text, item)?;
    }
    write_place(out, text, page.head)?;
    writeln!(out, "a first script goes here")
}

/// Writes the lines of the outline of a text as a page.
pub fn write_page<W: Write>(alloc: Global, out: &mut W, text: &[u8]) -> io::Result<()> {
    if text.len() >= u32::MAX as usize {
        return writeln!(out, "1:1 text is too long");
    }
    match scan_page(alloc, text) {
        Ok(page) => write_found(alloc, out, text, &page),
        Err(_) => writeln!(out, "1:1 out of memory"),
    }
}

/// Writes a line for an import of a stylesheet: its address as it is written.
fn write_import<W: Write>(out: &mut W, text: &[u8], import: &StyleImport) -> io::Result<()> {
    write_place(out, text, import.rule)?;
    write!(out, "import ")?;
    write_bytes(out, text, import.address.start, import.address.end)?;
    if import.has_escapes {
        write!(out, ", with escapes")?;
    }
    writeln!(out)
}

/// Writes the lines of the outline of a text as a stylesheet.
pub fn write_style<W: Write>(alloc: Global, out: &mut W, text: &[u8]) -> io::Result<()> {
    if text.len() >= u32::MAX as usize {
        return writeln!(out, "1:1 text is too long");
    }
    match scan_style(alloc, text) {
        Ok(style) => {
            for import in &style.imports {
                write_import(out, text, import)?;
            }
            Ok(())
        }
        Err(_) => writeln!(out, "1:1 out of memory"),
    }
}
