// The text of a module, as a browser is sent it.
ghost use Rattle.std.specs.Prelude.{◌≡◌, ◌++◌, IfOk, None, OnOk, List, true, ℕ};
ghost use Rattle.std.specs.List.{list_any};
ghost use Rattle.browser_texts.specs.Scripts.{hashbang_splices, hook_splices, import_splices, is_call};
ghost use Rattle.browser_texts.specs.Scripts.{is_hooked, is_plain, script_of, splices_of};

use crate::calls::put_calls_before;
use crate::specifiers::put_specifier;
use crate::words::put_word;
use es_scan::{ModuleSpecifier, Outline, Purpose, Span};
use hmr_types::{ModName, Sequence};
use instance_urls::Instances;
use std::alloc::{AllocError, Global};
use text_splices::{Splice, spliced};

/// What a browser is sent of the text of the module `name`, by the text's outline, where its imports are linked
/// to these instances.
///
/// Before the first statement stands the hook, `globalThis.__hmr?.enter(import.meta);`, where the text uses
/// `import.meta` or calls `import`. Each such call is one of the client's function, or of the browser's own
/// `import` where the client isn't there. The specifier of a declaration that leads to a module with an
/// instance of a plan is the URL of that instance; any other stays. A `#!` is `//`. All else is the text, byte
/// for byte; a [plain](is_plain) text of which no module has such an instance is sent as it is.
///
/// It takes time and memory linear in the text and the outline, but for what the look-up of instances takes.
pub fn script_text<I: Instances>(
    alloc: Global,
    instances: &I,
    name: &ModName,
    text: &[u8],
    outline: &Outline,
) -> Result<Vec<u8>, AllocError>
    ensures text { IfOk result
        (λ made. made.items ≡ script_of (I.instance_of instances.now) name.now text.now outline.now) }
    ensures plain { is_plain outline.now ≡ true
        → ((n : List ℕ) → I.instance_of instances.now n ≡ None)
        → IfOk result (λ made. made.items ≡ text.now) }
{
    let splices = script_splices(alloc, instances, name, text, outline)?;
    let made = spliced(alloc, text, &splices)?;
    Ok(made)
}

/// The ranges of the text of a module that a browser isn't sent as they are, and what stands in their place.
pub fn script_splices<I: Instances>(
    alloc: Global,
    instances: &I,
    name: &ModName,
    text: &[u8],
    outline: &Outline,
) -> Result<Vec<Splice>, AllocError>
    ensures { IfOk result
        (λ splices.
        splices.items ≡ splices_of (I.instance_of instances.now) name.now text.now outline.now) }
{
    let mut splices = Vec::new(alloc);
    put_hashbang(alloc, &mut splices, text, outline.hashbang)?;
    put_hook(alloc, &mut splices, outline)?;
    put_imports(alloc, &mut splices, instances, name, text, outline)?;
    Ok(splices)
}

/// Whether a text has no `#!`, doesn't use `import.meta` and calls no `import`, so that it is sent byte for
/// byte where its imports are at plain URLs.
pub fn is_plain(outline: &Outline) -> bool
    ensures { result ≡ is_plain outline.now }
{
    !is_hooked(outline) && outline.hashbang.is_none()
}

fn put_imports<I: Instances>(
    alloc: Global,
    splices: &mut Vec<Splice>,
    instances: &I,
    name: &ModName,
    text: &[u8],
    outline: &Outline,
) -> Result<(), AllocError>
    ensures { OnOk result
        (splices.new.items
        ≡ splices.old.items
        ++ import_splices (I.instance_of instances.now) name.now text.now outline.now.computed.items outline.now.specifiers.items) }
{
    let specifiers = outline.specifiers.as_slice();
    let mut calls = outline.computed.as_slice();
    for i in 0..specifiers.len() {
        let limit = specifiers[i].literal.start as usize;
        calls = put_calls_before(alloc, splices, text, limit, calls)?;
        put_specifier(alloc, splices, instances, name, text, &specifiers[i])?;
    }
    put_calls_before(alloc, splices, text, text.len(), calls)?;
    Ok(())
}

fn put_hook(alloc: Global, splices: &mut Vec<Splice>, outline: &Outline) -> Result<(), AllocError>
    ensures { OnOk result (splices.new.items ≡ splices.old.items ++ hook_splices outline.now) }
{
    if is_hooked(outline) {
        let at = outline.first_statement as usize;
        let hook = Vec::from_slice(alloc, b"globalThis.__hmr?.enter(import.meta);")?;
        splices.push(Splice {
            start: at,
            end: at,
            by: Sequence::from_vec(hook),
        })?;
    }
    Ok(())
}

fn put_hashbang(
    alloc: Global,
    splices: &mut Vec<Splice>,
    text: &[u8],
    hashbang: Option<Span>,
) -> Result<(), AllocError>
    ensures { OnOk result
        (splices.new.items ≡ splices.old.items ++ hashbang_splices text.now hashbang) }
{
    match hashbang {
        Some(comment) => put_word(alloc, splices, text, comment.start as usize, b"#!", b"//"),
        None => Ok(()),
    }
}

/// Whether a text uses `import.meta` or calls `import`.
fn is_hooked(outline: &Outline) -> bool
    ensures { result ≡ is_hooked outline.now }
{
    outline.first_meta.is_some() || !outline.computed.is_empty() || has_call(&outline.specifiers)
}

fn has_call(specifiers: &[ModuleSpecifier]) -> bool
    ensures { result ≡ list_any (λ s. is_call s.purpose) specifiers.now }
{
    specifiers.iter().any(is_call)
}

fn is_call(specifier: &ModuleSpecifier) -> bool
    ensures { result ≡ is_call specifier.now.purpose }
{
    matches!(specifier.purpose, Purpose::ImportCall)
}
