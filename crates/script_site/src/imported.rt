// Which names a file imports from which modules, as people are shown them.
use crate::scanned::{Scan, ScannedFile};
use es_scan::{Imported, ModuleSpecifier, Outline, Purpose, Span};
use file_names::resolve_specifier;
use hmr_types::{ModName, Text};
use live_lines::ImportedName;
use std::alloc::{AllocError, Global};

/// Which names a file of JavaScript imports from which modules of the folder, by its declarations of
/// imports and of what it exports again; `*` is all of a module. Other files import none. It takes memory
/// linear in what is answered, and time linear in what a scan found.
pub(crate) fn names_imported(
    alloc: Global,
    name: &ModName,
    file: &ScannedFile,
) -> Result<Vec<ImportedName>, AllocError> {
    let mut names = Vec::new(alloc);
    if let Scan::Script(outline) = &file.scan {
        for specifier in &outline.specifiers {
            put_imported(alloc, &mut names, name, &file.text, outline, specifier)?;
        }
    }
    Ok(names)
}

// Puts the names that a declaration takes of its module.
fn put_imported(
    alloc: Global,
    names: &mut Vec<ImportedName>,
    name: &ModName,
    text: &[u8],
    outline: &Outline,
    specifier: &ModuleSpecifier,
) -> Result<(), AllocError> {
    if matches!(specifier.purpose, Purpose::ImportCall | Purpose::Accept) {
        return Ok(());
    }
    let Some(from) = resolve_specifier(alloc, name, inside(text, specifier.literal))? else {
        return Ok(());
    };
    let rows = specifier.names.from..specifier.names.to;
    match specifier.purpose {
        Purpose::Import => {
            if let Some(bindings) = outline.imports.get(rows) {
                for binding in bindings {
                    put_name(alloc, names, &from, imported_text(text, binding.imported))?;
                }
            }
            Ok(())
        }
        Purpose::Export => {
            if let Some(exports) = outline.exports.get(rows) {
                for export in exports {
                    put_name(alloc, names, &from, local_text(text, export.local))?;
                }
            }
            Ok(())
        }
        Purpose::ExportAll => put_name(alloc, names, &from, b"*"),
        Purpose::ImportCall | Purpose::Accept => Ok(()),
    }
}

fn put_name(
    alloc: Global,
    names: &mut Vec<ImportedName>,
    from: &ModName,
    name: &[u8],
) -> Result<(), AllocError> {
    if let Ok(name) = str::from_utf8(name) {
        names.push(ImportedName {
            from: from.clone()?,
            name: Text::from_string(String::from_str(alloc, name)?),
        })?;
    }
    Ok(())
}

fn imported_text(text: &[u8], imported: Imported) -> &[u8] {
    match imported {
        Imported::Namespace => b"*",
        Imported::Default => b"default",
        Imported::Name(name) => name_text(text, name),
    }
}

// What is exported again: a name, or all of a module.
fn local_text(text: &[u8], local: Option<Span>) -> &[u8] {
    match local {
        Some(name) => name_text(text, name),
        None => b"*",
    }
}

// A name as it stands in the text, and a string literal without its quotes.
fn name_text(text: &[u8], name: Span) -> &[u8] {
    match part(text, name) {
        [b'"' | b'\'', inside @ .., _last] => inside,
        name => name,
    }
}

// What stands between the quotes of a literal.
fn inside(text: &[u8], literal: Span) -> &[u8] {
    match part(text, literal) {
        [_first, inside @ .., _last] => inside,
        _ => &[],
    }
}

// The bytes of a span; none where it isn't in the text.
fn part(text: &[u8], span: Span) -> &[u8] {
    match text.get(span.start as usize..span.end as usize) {
        Some(bytes) => bytes,
        None => &[],
    }
}
