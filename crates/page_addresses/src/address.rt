// Addresses as specifiers.
ghost use Rattle.std.specs.Prelude.{◌≡◌, IfOk};
ghost use Rattle.page_addresses.specs.Addresses.{addressed, first_mark, has_scheme, is_mark, is_path};
ghost use Rattle.page_addresses.specs.Addresses.{led, near, trimmed};

use file_names::resolve_specifier;
use hmr_types::ModName;
use std::alloc::{AllocError, Global};

/// The module of the folder to which an address leads in the page or the stylesheet `base`: what a specifier
/// leads to, where `a.css` is `./a.css`, without blanks around it. None where it is empty or has a scheme, as
/// `https:`. It takes time and memory linear in `base` and the address.
pub fn resolve_address(
    alloc: Global,
    base: &ModName,
    address: &[u8],
) -> Result<Option<ModName>, AllocError>
    ensures { IfOk result (λ found. found ≡ addressed base.now address.now) }
{
    resolve_trimmed(alloc, base, trimmed(address))
}

fn resolve_trimmed(
    alloc: Global,
    base: &ModName,
    address: &[u8],
) -> Result<Option<ModName>, AllocError>
    ensures { IfOk result (λ found. found ≡ led base.now address.now) }
{
    if address.is_empty() || has_scheme(address) {
        return Ok(None);
    }
    if is_path(address) {
        return resolve_specifier(alloc, base, address);
    }
    let near = near(alloc, address)?;
    resolve_specifier(alloc, base, &near)
}

/// An address without the blanks around it.
fn trimmed(address: &[u8]) -> &[u8]
    ensures { result.now ≡ trimmed address.now }
{
    address.trim_ascii()
}

/// Whether an address says where it begins.
fn is_path(address: &[u8]) -> bool
    ensures { result ≡ is_path address.now }
{
    address.starts_with(b"/") || address.starts_with(b"./") || address.starts_with(b"../")
}

/// An address as a path from the folder of what has it.
fn near(alloc: Global, address: &[u8]) -> Result<Vec<u8>, AllocError>
    ensures { IfOk result (λ path. path.items ≡ near address.now) }
{
    let mut path = Vec::from_slice(alloc, b"./")?;
    path.extend_from_slice(address)?;
    Ok(path)
}

/// Whether a colon stands before the first slash, question mark or hash.
fn has_scheme(address: &[u8]) -> bool
    ensures { result ≡ has_scheme address.now }
{
    first_mark(address) == b':'
}

/// The first byte that ends a scheme or that no scheme has; 0 where there is none.
fn first_mark(address: &[u8]) -> u8
    ensures { result ≡ first_mark address.now }
{
    for i in 0..address.len() {
        if is_mark(address[i]) {
            return address[i];
        }
    }
    0
}

fn is_mark(byte: u8) -> bool
    ensures { result ≡ is_mark byte }
{
    matches!(byte, b':' | b'/' | b'?' | b'#')
}
