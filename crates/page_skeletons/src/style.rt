// The skeletons of a stylesheet and of data.
ghost use Rattle.std.specs.Prelude.{◌≤◌};
ghost use Rattle.hmr_types.specs.declared.limits.TheConstants.{LARGEST_NUMBER};

use crate::addresses::put_address;
use css_scan::StyleOutline;
use hmr_types::ModName;
use skeletons::list_skeleton;
use std::alloc::{AllocError, Global};

/// The skeleton of a stylesheet of the folder, by the scan of its text: it imports those that its `@import`
/// rules name, but for addresses with escapes, which are left to the browser. The stamp is a count of the
/// file's changes. It takes time and memory linear in the text, but for the look-up of imported names, of which
/// there are at most 257.
pub fn style_skeleton(
    alloc: Global,
    name: &ModName,
    stamp: u64,
    text: &[u8],
    outline: &StyleOutline,
) -> Result<Vec<u8>, AllocError>
    requires stamp { stamp ≤ LARGEST_NUMBER }
{
    let mut imports = Vec::new(alloc);
    for import in &outline.imports {
        let span = import.address;
        let address = text.get(span.start as usize..span.end as usize);
        if let Some(address) = address
            && !import.has_escapes
        {
            put_address(alloc, &mut imports, name, address)?;
        }
    }
    list_skeleton(alloc, stamp, &imports, &[])
}

/// The skeleton of a file of data, as one of JSON: it imports nothing. The stamp is a count of the file's
/// changes.
pub fn data_skeleton(alloc: Global, stamp: u64) -> Result<Vec<u8>, AllocError>
    requires stamp { stamp ≤ LARGEST_NUMBER }
{
    list_skeleton(alloc, stamp, &[], &[])
}
