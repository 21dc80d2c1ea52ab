// What a page asks of the modules that it has: which they are, and what it is told of each.
use crate::scanned::{Scan, ScannedFile};
use hmr_types::{ModName, NameFault, Ver};
use page_skeletons::Folder;
use scan_reports::{data_report, page_report, script_report, style_report};
use serde_json::{Map, Value};
use std::alloc::{AllocError, Global};

/// A module at a version.
#[derive(Drop)]
pub(crate) struct AskedModule {
    pub name: ModName,
    pub version: Ver,
}

/// The modules that a page asks about by `{"made": {"/a.js": 4}}`; None where the bytes are no such JSON.
pub(crate) fn asked_modules(
    alloc: Global,
    body: &[u8],
) -> Result<Option<Vec<AskedModule>>, AllocError> {
    match Value::from_slice(alloc, body) {
        Ok(value) => match value.get("made") {
            Some(Value::Object(members)) => modules_of(alloc, members),
            _ => Ok(None),
        },
        Err(e) if e.is_memory() => Err(AllocError),
        Err(_) => Ok(None),
    }
}

fn modules_of(
    alloc: Global,
    members: &Map<String, Value>,
) -> Result<Option<Vec<AskedModule>>, AllocError> {
    let mut modules = Vec::new(alloc);
    for (key, value) in members.iter() {
        let Some(version) = value.as_u64() else {
            return Ok(None);
        };
        match ModName::read(alloc, key.as_bytes()) {
            Ok(name) => modules.push(AskedModule { name, version })?,
            Err(NameFault::NotAName) => return Ok(None),
            Err(NameFault::NoMemory) => return Err(AllocError),
        }
    }
    Ok(Some(modules))
}

/// What a page is told of a file: what it imports and exports, as `scan_reports` says; null of one that
/// the core refuses.
pub(crate) fn report_of<G: Folder>(
    alloc: Global,
    name: &ModName,
    file: &ScannedFile,
    folder: &G,
) -> Result<Value, AllocError> {
    let text = &file.text;
    match &file.scan {
        Scan::Script(outline) => script_report(alloc, name, text, outline),
        Scan::Style(outline) => style_report(alloc, name, text, outline),
        Scan::Data => data_report(alloc),
        Scan::Page(page) => page_report(alloc, name, text, &page.outline, folder),
        Scan::Refused => Ok(Value::Null),
    }
}
