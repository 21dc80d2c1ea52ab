// A file is read: what a scan finds in it, and its skeleton, which the core is told in its place.
ghost use Rattle.std.specs.Prelude.{◌≤◌, ◌<◌, ◌+◌, ◌^◌, length};
ghost use Rattle.hmr_types.specs.declared.limits.TheConstants.{LARGEST_NUMBER};

use crate::file_kind::{FileKind, kind_of};
use crate::scanned::{PageScan, Scan, ScannedFile};
use browser_texts::is_plain;
use css_scan::scan_style;
use es_scan::scan;
use hmr_types::limits::{IMPORTS, LARGEST_NUMBER};
use hmr_types::{ModName, Ver};
use html_scan::{PageOutline, PagePart, Span, scan_page};
use page_skeletons::{Folder, data_skeleton, page_skeleton, style_skeleton};
use skeletons::skeleton;
use std::alloc::{AllocError, Global};
use std::sync::Arc;

/// A file as it was read: its text with what a scan found in it, and its skeleton.
#[derive(Drop)]
pub struct ReadFile {
    /// None where the text is too long for a scan.
    pub(crate) skeleton: Option<Vec<u8>>,
    pub(crate) file: Arc<ScannedFile, Global>,
}

/// A skeleton, and what the scan found.
#[derive(Drop)]
struct ScannedText {
    skeleton: Vec<u8>,
    scan: Scan,
}

/// Reads the text that the file of a module has by the edit of this number. It takes time and memory
/// linear in the text, and what a look for the targets of a page's import map takes.
pub(crate) fn read_file<G: Folder>(
    alloc: Global,
    folder: &G,
    name: &ModName,
    version: Ver,
    text: &[u8],
) -> Result<ReadFile, AllocError> {
    if text.len() >= u32::MAX as usize {
        return long_file(alloc);
    }
    let stamp = version.min(LARGEST_NUMBER);
    let ScannedText { skeleton, scan } = read_by_kind(alloc, folder, name, stamp, text)?;
    let scan = if has_few_imports(&skeleton) {
        scan
    } else {
        Scan::Refused
    };
    let file = ScannedFile {
        text: Vec::from_slice(alloc, text)?,
        scan,
    };
    Ok(ReadFile {
        skeleton: Some(skeleton),
        file: Arc::new(alloc, file)?,
    })
}

// A file whose text is too long for a scan.
fn long_file(alloc: Global) -> Result<ReadFile, AllocError> {
    let file = ScannedFile {
        text: Vec::new(alloc),
        scan: Scan::Refused,
    };
    Ok(ReadFile {
        skeleton: None,
        file: Arc::new(alloc, file)?,
    })
}

// Whether a skeleton imports no more modules than the core takes. Each import is a line of its own.
fn has_few_imports(skeleton: &[u8]) -> bool {
    let mut left = IMPORTS;
    for line in skeleton.split(|b| *b == b'\n') {
        if line.starts_with(b"import \"") {
            if left == 0 {
                return false;
            }
            left -= 1;
        }
    }
    true
}

fn read_by_kind<G: Folder>(
    alloc: Global,
    folder: &G,
    name: &ModName,
    stamp: u64,
    text: &[u8],
) -> Result<ScannedText, AllocError>
    requires stamp { stamp ≤ LARGEST_NUMBER }
    requires short { length text.now + 1 < 2 ^ 32 }
{
    match kind_of(name) {
        FileKind::Page => read_page(alloc, folder, name, stamp, text),
        FileKind::Style => read_style(alloc, name, stamp, text),
        FileKind::Data => Ok(ScannedText {
            skeleton: data_skeleton(alloc, stamp)?,
            scan: Scan::Data,
        }),
        FileKind::Script => read_script(alloc, name, stamp, text),
    }
}

fn read_script(
    alloc: Global,
    name: &ModName,
    stamp: u64,
    text: &[u8],
) -> Result<ScannedText, AllocError>
    requires stamp { stamp ≤ LARGEST_NUMBER }
    requires short { length text.now + 1 < 2 ^ 32 }
{
    let found = scan(alloc, text);
    let skeleton = skeleton(alloc, name, stamp, text, &found)?;
    let scan = match found {
        Ok(outline) => Scan::Script(outline),
        Err(_) => Scan::Refused,
    };
    Ok(ScannedText { skeleton, scan })
}

fn read_style(
    alloc: Global,
    name: &ModName,
    stamp: u64,
    text: &[u8],
) -> Result<ScannedText, AllocError>
    requires stamp { stamp ≤ LARGEST_NUMBER }
    requires short { length text.now + 1 < 2 ^ 32 }
{
    let outline = scan_style(alloc, text)?;
    let skeleton = style_skeleton(alloc, name, stamp, text, &outline)?;
    Ok(ScannedText {
        skeleton,
        scan: Scan::Style(outline),
    })
}

fn read_page<G: Folder>(
    alloc: Global,
    folder: &G,
    name: &ModName,
    stamp: u64,
    text: &[u8],
) -> Result<ScannedText, AllocError>
    requires stamp { stamp ≤ LARGEST_NUMBER }
    requires short { length text.now + 1 < 2 ^ 32 }
{
    let outline = scan_page(alloc, text)?;
    let skeleton = page_skeleton(alloc, name, stamp, text, &outline, folder)?;
    let hooks = hooks_of(alloc, text, &outline)?;
    Ok(ScannedText {
        skeleton,
        scan: Scan::Page(PageScan { outline, hooks }),
    })
}

// Where hooks go in a page.
fn hooks_of(alloc: Global, text: &[u8], outline: &PageOutline) -> Result<Vec<u32>, AllocError> {
    let mut hooks = Vec::new(alloc);
    for item in &outline.items {
        if let PagePart::InlineModule(content) = item.part
            && let Some(at) = hook_in(alloc, text, content)
        {
            hooks.push(at)?;
        }
    }
    Ok(hooks)
}

// Where the hook of an inline module goes; None where it has none, or can't be read, or where memory
// runs out.
fn hook_in(alloc: Global, text: &[u8], content: Span) -> Option<u32> {
    let Some(inside) = text.get(content.start as usize..content.end as usize) else {
        return None;
    };
    if inside.len() >= u32::MAX as usize {
        return None;
    }
    match scan(alloc, inside) {
        Ok(outline) if !is_plain(&outline) => content.start.checked_add(outline.first_statement),
        _ => None,
    }
}
