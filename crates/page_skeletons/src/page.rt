// The skeleton of a page.
ghost use Rattle.std.specs.Prelude.{◌≤◌, ◌<◌, ◌+◌, ◌^◌, length};
ghost use Rattle.hmr_types.specs.declared.limits.TheConstants.{LARGEST_NUMBER};

use crate::addresses::put_address;
use crate::folder::Folder;
use crate::import_map::import_targets;
use es_scan::scan;
use hmr_types::ModName;
use html_scan::{PageItem, PageOutline, PagePart, Span, attribute_value};
use page_addresses::resolve_address;
use skeletons::{Followed, list_skeleton, modules};
use std::alloc::{AllocError, Global};

/// The modules that a page takes.
#[derive(Drop)]
struct Taken {
    imports: Vec<ModName>,
    accepts: Vec<ModName>,
}

/// The skeleton of a page of the folder, by the scan of its text: what it imports in the order of the text, as
/// the crate's comment says, and of that its stylesheets and what its inline modules accept. An inline module
/// that can't be read has no imports; the browser tells its fault. The stamp is a count of the file's changes.
///
/// It takes time and memory linear in the text, but for the look-up of imported names, of which there are at
/// most 257.
pub fn page_skeleton<F: Folder>(
    alloc: Global,
    name: &ModName,
    stamp: u64,
    text: &[u8],
    outline: &PageOutline,
    folder: &F,
) -> Result<Vec<u8>, AllocError>
    requires stamp { stamp ≤ LARGEST_NUMBER }
    requires short { length text.now + 1 < 2 ^ 32 }
{
    let mut taken = Taken {
        imports: Vec::new(alloc),
        accepts: Vec::new(alloc),
    };
    for item in &outline.items {
        put_item(alloc, &mut taken, name, text, item, folder)?;
    }
    list_skeleton(alloc, stamp, &taken.imports, &taken.accepts)
}

fn put_item<F: Folder>(
    alloc: Global,
    taken: &mut Taken,
    name: &ModName,
    text: &[u8],
    item: &PageItem,
    folder: &F,
) -> Result<(), AllocError>
    requires short { length text.now + 1 < 2 ^ 32 }
{
    match item.part {
        PagePart::ModuleScript(address) | PagePart::ClassicScript(address) => {
            let address = attribute_value(alloc, text, address)?;
            put_address(alloc, &mut taken.imports, name, &address)
        }
        PagePart::Stylesheet(address) => {
            let address = attribute_value(alloc, text, address)?;
            put_style(alloc, taken, name, &address)
        }
        PagePart::InlineModule(content) => put_inline(alloc, taken, name, part(text, content)),
        PagePart::ImportMap(content) => {
            let targets = import_targets(alloc, name, part(text, content), folder)?;
            taken.imports.extend(targets)?;
            Ok(())
        }
    }
}

fn put_style(
    alloc: Global,
    taken: &mut Taken,
    name: &ModName,
    address: &[u8],
) -> Result<(), AllocError> {
    let Some(style) = resolve_address(alloc, name, address)? else {
        return Ok(());
    };
    taken.accepts.push(style.clone()?)?;
    taken.imports.push(style)?;
    Ok(())
}

// What an inline module imports and accepts; its specifiers are relative to the page.
fn put_inline(
    alloc: Global,
    taken: &mut Taken,
    name: &ModName,
    content: &[u8],
) -> Result<(), AllocError> {
    if content.len() >= u32::MAX as usize {
        return Ok(());
    }
    let Ok(outline) = scan(alloc, content) else {
        return Ok(());
    };
    let Followed { imports, accepted } = modules(alloc, name, content, &outline.specifiers)?;
    taken.imports.extend(imports)?;
    taken.accepts.extend(accepted)?;
    Ok(())
}

// The bytes of a span; none where it isn't in the text.
fn part(text: &[u8], span: Span) -> &[u8] {
    match text.get(span.start as usize..span.end as usize) {
        Some(bytes) => bytes,
        None => &[],
    }
}
