// The text of a page, as a browser is sent it.
ghost use Rattle.std.specs.Prelude.{◌≡◌, ◌∷◌, ◌++◌, [], IfOk, OnOk, map};
ghost use Rattle.page_texts.specs.Pages.{hook_at, page_of, put_in, tag_text};

use crate::client_tag::{ClientTag, write_tag};
use hmr_types::{ModName, Sequence};
use std::alloc::{AllocError, Global};
use text_splices::{Splice, spliced};

/// What a browser is sent of the HTML of the page `root`: the client's tag at `head`, and the statement
/// `globalThis.__hmr?.enter(import.meta);` at each of the places `hooks`, where the first statement of an inline
/// module is that uses `import.meta` or calls `import`. Places are counts of bytes from the start of the text;
/// they are to rise from `head` on and to lie in the text, and one that doesn't is left out.
///
/// It takes time and memory linear in the text and the places.
pub fn page_text(
    alloc: Global,
    tag: ClientTag,
    root: &ModName,
    text: &[u8],
    head: u32,
    hooks: &[u32],
) -> Result<Vec<u8>, AllocError>
    ensures { IfOk result (λ made. made.items ≡ page_of tag root.now text.now head hooks.now) }
{
    let mut splices = Vec::new(alloc);
    put_tag(alloc, &mut splices, tag, root, head)?;
    put_hooks(alloc, &mut splices, hooks)?;
    let made = spliced(alloc, text, &splices)?;
    Ok(made)
}

fn put_tag(
    alloc: Global,
    splices: &mut Vec<Splice>,
    tag: ClientTag,
    root: &ModName,
    head: u32,
) -> Result<(), AllocError>
    ensures { OnOk result
        (splices.new.items ≡ splices.old.items ++ put_in head (tag_text tag root.now) ∷ []) }
{
    let mut by = Vec::new(alloc);
    write_tag(&mut by, tag, root)?;
    put(splices, head, by)
}

fn put_hooks(alloc: Global, splices: &mut Vec<Splice>, hooks: &[u32]) -> Result<(), AllocError>
    ensures { OnOk result (splices.new.items ≡ splices.old.items ++ map hook_at hooks.now) }
{
    for at in hooks {
        put_hook(alloc, splices, *at)?;
    }
    Ok(())
}

fn put_hook(alloc: Global, splices: &mut Vec<Splice>, at: u32) -> Result<(), AllocError>
    ensures { OnOk result (splices.new.items ≡ splices.old.items ++ hook_at at ∷ []) }
{
    let hook = Vec::from_slice(alloc, b"globalThis.__hmr?.enter(import.meta);")?;
    put(splices, at, hook)
}

/// Puts in a text before the byte at a place.
fn put(splices: &mut Vec<Splice>, at: u32, by: Vec<u8>) -> Result<(), AllocError>
    ensures { OnOk result (splices.new.items ≡ splices.old.items ++ put_in at by.items ∷ []) }
{
    let at = at as usize;
    splices.push(Splice {
        start: at,
        end: at,
        by: Sequence::from_vec(by),
    })?;
    Ok(())
}
