// The imports that addresses of pages and stylesheets are.
use hmr_types::ModName;
use page_addresses::resolve_address;
use std::alloc::{AllocError, Global};

/// Puts the module to which an address leads, where there is one.
pub(crate) fn put_address(
    alloc: Global,
    names: &mut Vec<ModName>,
    base: &ModName,
    address: &[u8],
) -> Result<(), AllocError> {
    if let Some(name) = resolve_address(alloc, base, address)? {
        names.push(name)?;
    }
    Ok(())
}
