// The reports of a stylesheet and of data.
use crate::lines::LineCount;
use css_scan::{Span, StyleImport, StyleOutline};
use hmr_types::ModName;
use page_addresses::resolve_address;
use serde_json::{Value, json};
use std::alloc::{AllocError, Global};

/// What the page's client is told of a stylesheet of the folder, by its scan: as a file of JavaScript that
/// exports nothing, of `kind` `css`, with the stylesheets that it imports.
pub fn style_report(
    alloc: Global,
    name: &ModName,
    text: &[u8],
    outline: &StyleOutline,
) -> Result<Value, AllocError> {
    let mut imports = Vec::new(alloc);
    let mut lines = LineCount::new(1);
    for import in &outline.imports {
        let line = lines.line_at(text, import.rule);
        put_import(alloc, &mut imports, name, text, import, line)?;
    }
    report_of(alloc, "css", imports)
}

// An imported stylesheet; none where its address has escapes, or leads to no module of the folder.
fn put_import(
    alloc: Global,
    imports: &mut Vec<Value>,
    name: &ModName,
    text: &[u8],
    import: &StyleImport,
    line: u64,
) -> Result<(), AllocError> {
    if import.has_escapes {
        return Ok(());
    }
    if let Some(to) = resolve_address(alloc, name, part(text, import.address))? {
        imports.push(
            json!(in alloc; {"line": line, "names": [], "role": "style", "to": to.as_str()})?,
        )?;
    }
    Ok(())
}

// The bytes of a span; none where it isn't in the text.
fn part(text: &[u8], span: Span) -> &[u8] {
    match text.get(span.start as usize..span.end as usize) {
        Some(bytes) => bytes,
        None => &[],
    }
}

/// What the page's client is told of a file of data, as one of JSON: that it exports `default`.
pub fn data_report(alloc: Global) -> Result<Value, AllocError> {
    json!(in alloc; {"exports": ["default"], "imports": [], "kind": "json", "stars": [], "through": []})
}

/// A report of a file that exports nothing.
pub(crate) fn report_of(
    alloc: Global,
    kind: &str,
    imports: Vec<Value>,
) -> Result<Value, AllocError> {
    let imports = Value::Array(imports);
    json!(in alloc; {"exports": [], "imports": imports, "kind": kind, "stars": [], "through": []})
}
