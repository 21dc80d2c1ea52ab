// The report of a page.
use crate::lines::LineCount;
use crate::script::script_imports;
use crate::style::report_of;
use es_scan::scan;
use hmr_types::ModName;
use html_scan::{Attribute, PageItem, PageOutline, PagePart, Span, attribute_value};
use page_addresses::resolve_address;
use page_skeletons::{Folder, import_targets};
use serde_json::{Value, json};
use std::alloc::{AllocError, Global};

/// What the page's client is told of a page of the folder, by its scan: as a file of JavaScript that exports
/// nothing, of `kind` `html`; of each import also its `role`: `module`, `script`, `style`, or `map` for a target
/// of its import map. What an inline module imports has no role. Lines are those of the page's text. It takes
/// time and memory linear in the text, but for the look-up of the import map's targets in the folder.
pub fn page_report<F: Folder>(
    alloc: Global,
    name: &ModName,
    text: &[u8],
    outline: &PageOutline,
    folder: &F,
) -> Result<Value, AllocError> {
    let mut imports = Vec::new(alloc);
    let mut lines = LineCount::new(1);
    for item in &outline.items {
        put_item(alloc, &mut imports, &mut lines, name, text, item, folder)?;
    }
    report_of(alloc, "html", imports)
}

fn put_item<F: Folder>(
    alloc: Global,
    imports: &mut Vec<Value>,
    lines: &mut LineCount,
    name: &ModName,
    text: &[u8],
    item: &PageItem,
    folder: &F,
) -> Result<(), AllocError> {
    let line = lines.line_at(text, item.tag.start);
    match item.part {
        PagePart::ModuleScript(address) => {
            put_address(alloc, imports, name, text, address, "module", line)
        }
        PagePart::ClassicScript(address) => {
            put_address(alloc, imports, name, text, address, "script", line)
        }
        PagePart::Stylesheet(address) => {
            put_address(alloc, imports, name, text, address, "style", line)
        }
        PagePart::InlineModule(content) => {
            let line = lines.line_at(text, content.start);
            put_inline(alloc, imports, name, part(text, content), line)
        }
        PagePart::ImportMap(content) => {
            for to in &import_targets(alloc, name, part(text, content), folder)? {
                imports.push(import_value(alloc, to, "map", line)?)?;
            }
            Ok(())
        }
    }
}

fn put_address(
    alloc: Global,
    imports: &mut Vec<Value>,
    name: &ModName,
    text: &[u8],
    address: Attribute,
    role: &str,
    line: u64,
) -> Result<(), AllocError> {
    let address = attribute_value(alloc, text, address)?;
    if let Some(to) = resolve_address(alloc, name, &address)? {
        imports.push(import_value(alloc, &to, role, line)?)?;
    }
    Ok(())
}

fn import_value(alloc: Global, to: &ModName, role: &str, line: u64) -> Result<Value, AllocError> {
    json!(in alloc; {"line": line, "names": [], "role": role, "to": to.as_str()})
}

// What an inline module imports; its specifiers are relative to the page.
fn put_inline(
    alloc: Global,
    imports: &mut Vec<Value>,
    name: &ModName,
    content: &[u8],
    line: u64,
) -> Result<(), AllocError> {
    if content.len() >= u32::MAX as usize {
        return Ok(());
    }
    let Ok(outline) = scan(alloc, content) else {
        return Ok(());
    };
    let its = script_imports(alloc, name, content, &outline, line)?;
    imports.extend(its)?;
    Ok(())
}

// The bytes of a span; none where it isn't in the text.
fn part(text: &[u8], span: Span) -> &[u8] {
    match text.get(span.start as usize..span.end as usize) {
        Some(bytes) => bytes,
        None => &[],
    }
}
