// The skeleton of a text, as that of a file.
ghost use Rattle.std.specs.Prelude.{◌<◌, ◌+◌, ◌^◌, length};

use css_scan::scan_style;
use es_scan::scan;
use file_names::module_name;
use hmr_types::{ModName, NameFault};
use html_scan::scan_page;
use page_skeletons::{Folder, data_skeleton, page_skeleton, style_skeleton};
use skeletons::skeleton;
use std::alloc::{AllocError, Global};
use std::io::{self, Write};

/// A folder that has each file, since which it has isn't known here.
#[derive(Drop)]
struct EachFile {}

impl Folder for EachFile {
    fn has(&self, _name: &ModName) -> bool {
        true
    }
}

/// Writes the skeleton of a text, as that of the first version of the file at a path of its folder: of a page
/// where the path ends in `.html` or `.htm`, of a stylesheet at `.css`, of data at `.json`, and else of
/// JavaScript; or a line that says why there is none.
pub fn write_skeleton<W: Write>(
    alloc: Global,
    out: &mut W,
    path: &str,
    text: &[u8],
) -> io::Result<()> {
    if text.len() >= u32::MAX as usize {
        return writeln!(out, "text is too long");
    }
    let name = match module_name(alloc, path.as_bytes()) {
        Ok(name) => name,
        Err(NameFault::NotAName) => return writeln!(out, "no file of a folder has this path"),
        Err(NameFault::NoMemory) => return writeln!(out, "out of memory"),
    };
    let made = if path.ends_with(".html") || path.ends_with(".htm") {
        of_page(alloc, &name, text)
    } else if path.ends_with(".css") {
        of_style(alloc, &name, text)
    } else if path.ends_with(".json") {
        data_skeleton(alloc, 1)
    } else {
        skeleton(alloc, &name, 1, text, &scan(alloc, text))
    };
    match made {
        Ok(made) => out.write_all(&made),
        Err(_) => writeln!(out, "out of memory"),
    }
}

fn of_page(alloc: Global, name: &ModName, text: &[u8]) -> Result<Vec<u8>, AllocError>
    requires short { length text.now + 1 < 2 ^ 32 }
{
    let outline = scan_page(alloc, text)?;
    page_skeleton(alloc, name, 1, text, &outline, &EachFile {})
}

fn of_style(alloc: Global, name: &ModName, text: &[u8]) -> Result<Vec<u8>, AllocError>
    requires short { length text.now + 1 < 2 ^ 32 }
{
    let outline = scan_style(alloc, text)?;
    style_skeleton(alloc, name, 1, text, &outline)
}
