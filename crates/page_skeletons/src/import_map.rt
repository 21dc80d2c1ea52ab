// The import map of a page: the addresses that its names stand for.
use crate::folder::Folder;
use hmr_types::ModName;
use page_addresses::resolve_address;
use serde_json::Value;
use std::alloc::{AllocError, Global};

/// The modules that are targets of the import map of a page, where the folder has them. A target that ends
/// with a slash stands for many, and is none; a text that isn't a JSON object with an object `imports` has
/// none.
pub fn import_targets<F: Folder>(
    alloc: Global,
    base: &ModName,
    map: &[u8],
    folder: &F,
) -> Result<Vec<ModName>, AllocError> {
    let mut names = Vec::new(alloc);
    let Ok(Value::Object(map)) = Value::from_slice(alloc, map) else {
        return Ok(names);
    };
    let Some(Value::Object(imports)) = map.get("imports") else {
        return Ok(names);
    };
    for (_name, target) in imports {
        if let Value::String(target) = target {
            put_target(alloc, &mut names, base, target.as_bytes(), folder)?;
        }
    }
    Ok(names)
}

fn put_target<F: Folder>(
    alloc: Global,
    names: &mut Vec<ModName>,
    base: &ModName,
    target: &[u8],
    folder: &F,
) -> Result<(), AllocError> {
    let Some(name) = resolve_address(alloc, base, target)? else {
        return Ok(());
    };
    if folder.has(&name) {
        names.push(name)?;
    }
    Ok(())
}
