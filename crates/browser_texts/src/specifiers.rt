// Specifiers of import and export declarations.
ghost use Rattle.std.specs.Prelude.{◌≡◌, ◌∷◌, ◌++◌, [], IfOk, OnOk, if◌then◌else◌};
ghost use Rattle.browser_texts.specs.Scripts.{inside, line_feeds, linked, linked_to, literal_by};
ghost use Rattle.browser_texts.specs.Scripts.{range_of, specifier_splices};
ghost use Rattle.text_splices.specs.Places.{ends_line};

use crate::calls::put_literal_call;
use es_scan::{ModuleSpecifier, Purpose, Span};
use file_names::resolve_specifier;
use hmr_types::{ModName, Sequence};
use instance_urls::{Instances, PlanId, write_url};
use std::alloc::{AllocError, Global};
use text_splices::Splice;

/// Puts what a specifier asks for: the URL of an instance in the place of its literal, or the client's function
/// in the place of the word of its call.
pub(crate) fn put_specifier<I: Instances>(
    alloc: Global,
    splices: &mut Vec<Splice>,
    instances: &I,
    name: &ModName,
    text: &[u8],
    specifier: &ModuleSpecifier,
) -> Result<(), AllocError>
    ensures { OnOk result
        (splices.new.items
        ≡ splices.old.items
        ++ specifier_splices (I.instance_of instances.now) name.now text.now specifier.now specifier.now.purpose) }
{
    match specifier.purpose {
        Purpose::Import | Purpose::Export | Purpose::ExportAll => {
            let target = resolve_specifier(alloc, name, inside(text, specifier.literal))?;
            put_linked_to(alloc, splices, instances, text, specifier.literal, target)
        }
        Purpose::ImportCall => put_literal_call(alloc, splices, text, specifier),
        Purpose::Accept => Ok(()),
    }
}

fn put_linked_to<I: Instances>(
    alloc: Global,
    splices: &mut Vec<Splice>,
    instances: &I,
    text: &[u8],
    literal: Span,
    target: Option<ModName>,
) -> Result<(), AllocError>
    ensures { OnOk result
        (splices.new.items
        ≡ splices.old.items ++ linked_to (I.instance_of instances.now) text.now literal target) }
{
    match target {
        Some(name) => {
            let plan = instances.instance(&name);
            put_linked(alloc, splices, text, literal, &name, plan)
        }
        None => Ok(()),
    }
}

fn put_linked(
    alloc: Global,
    splices: &mut Vec<Splice>,
    text: &[u8],
    literal: Span,
    name: &ModName,
    plan: Option<PlanId>,
) -> Result<(), AllocError>
    ensures { OnOk result
        (splices.new.items ≡ splices.old.items ++ linked text.now literal name.now plan) }
{
    match plan {
        Some(plan) => {
            let by = literal_by(alloc, text, literal, name, plan)?;
            splices.push(Splice {
                start: literal.start as usize,
                end: literal.end as usize,
                by: Sequence::from_vec(by),
            })?;
            Ok(())
        }
        None => Ok(()),
    }
}

/// The URL of an instance as a string literal, and the line feeds of the literal in whose place it stands.
fn literal_by(
    alloc: Global,
    text: &[u8],
    literal: Span,
    name: &ModName,
    plan: PlanId,
) -> Result<Vec<u8>, AllocError>
    ensures { IfOk result (λ by. by.items ≡ literal_by text.now literal name.now plan) }
{
    let mut by = Vec::new(alloc);
    by.push(b'"')?;
    write_url(alloc, &mut by, name, Some(plan))?;
    by.push(b'"')?;
    put_line_feeds(&mut by, text, literal)?;
    Ok(by)
}

fn put_line_feeds(by: &mut Vec<u8>, text: &[u8], span: Span) -> Result<(), AllocError>
    ensures { OnOk result (by.new.items ≡ by.old.items ++ line_feeds text.now span) }
{
    let bytes = range_of(text, span);
    for i in 0..bytes.len() {
        put_if_line_feed(by, bytes[i])?;
    }
    Ok(())
}

fn put_if_line_feed(by: &mut Vec<u8>, byte: u8) -> Result<(), AllocError>
    ensures { OnOk result
        (by.new.items ≡ by.old.items ++ (if ends_line byte then byte ∷ [] else [])) }
{
    if byte == b'\n' {
        by.push(byte)?;
    }
    Ok(())
}

fn range_of(text: &[u8], span: Span) -> &[u8]
    ensures { result.now ≡ range_of text.now span }
{
    let start = span.start as usize;
    let end = span.end as usize;
    if start <= end && end <= text.len() {
        &text[start..end]
    } else {
        &[]
    }
}

/// What stands between the quotes of a literal.
fn inside(text: &[u8], literal: Span) -> &[u8]
    ensures { result.now ≡ inside text.now literal }
{
    let start = literal.start as usize + 1;
    let end = (literal.end as usize).saturating_sub(1);
    if start <= end && end <= text.len() {
        &text[start..end]
    } else {
        &[]
    }
}
