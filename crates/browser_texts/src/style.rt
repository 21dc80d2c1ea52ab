// The text of a stylesheet, as a browser is sent it.
ghost use Rattle.std.specs.Prelude.{◌≡◌, ◌∷◌, ◌++◌, [], IfOk, None, OnOk, List, Some, ℕ};
ghost use Rattle.instance_urls.specs.Urls.{url_of};
ghost use Rattle.browser_texts.specs.Styles.{address_bytes, address_splice, quote_end, quoted_url};
ghost use Rattle.browser_texts.specs.Styles.{rule_splices, rules_splices, style_of, styled, styled_to};

use css_scan::{Quoting, Span, StyleImport, StyleOutline};
use hmr_types::{ModName, Sequence};
use instance_urls::{Instances, PlanId, write_url};
use page_addresses::resolve_address;
use std::alloc::{AllocError, Global};
use text_splices::{Splice, spliced};

/// What a browser is sent of the text of the stylesheet `name`, by the text's outline, where its imports are
/// linked to these instances.
///
/// The address of an `@import` that leads to a module with an instance of a plan is the URL of that instance,
/// between double quotes; any other stays, and so does one with escapes. All else is the text, byte for byte; a
/// text of which no module has such an instance is sent as it is.
///
/// It takes time and memory linear in the text and the outline, but for what the look-up of instances takes.
pub fn style_text<I: Instances>(
    alloc: Global,
    name: &ModName,
    text: &[u8],
    outline: &StyleOutline,
    instances: &I,
) -> Result<Vec<u8>, AllocError>
    ensures text { IfOk result
        (λ made.
        made.items ≡ style_of (I.instance_of instances.now) name.now text.now outline.now.imports.items) }
    ensures plain { ((n : List ℕ) → I.instance_of instances.now n ≡ None)
        → IfOk result (λ made. made.items ≡ text.now) }
{
    let mut splices = Vec::new(alloc);
    put_rules(alloc, &mut splices, instances, name, text, &outline.imports)?;
    let made = spliced(alloc, text, &splices)?;
    Ok(made)
}

fn put_rules<I: Instances>(
    alloc: Global,
    splices: &mut Vec<Splice>,
    instances: &I,
    name: &ModName,
    text: &[u8],
    imports: &[StyleImport],
) -> Result<(), AllocError>
    ensures { OnOk result
        (splices.new.items
        ≡ splices.old.items
        ++ rules_splices (I.instance_of instances.now) name.now text.now imports.now) }
{
    for import in imports {
        put_rule(alloc, splices, instances, name, text, import)?;
    }
    Ok(())
}

fn put_rule<I: Instances>(
    alloc: Global,
    splices: &mut Vec<Splice>,
    instances: &I,
    name: &ModName,
    text: &[u8],
    import: &StyleImport,
) -> Result<(), AllocError>
    ensures { OnOk result
        (splices.new.items
        ≡ splices.old.items
        ++ rule_splices (I.instance_of instances.now) name.now text.now import.now) }
{
    if import.has_escapes {
        return Ok(());
    }
    let target = resolve_address(alloc, name, address_bytes(text, import.address))?;
    put_styled_to(alloc, splices, instances, text, import, target)
}

fn put_styled_to<I: Instances>(
    alloc: Global,
    splices: &mut Vec<Splice>,
    instances: &I,
    text: &[u8],
    import: &StyleImport,
    target: Option<ModName>,
) -> Result<(), AllocError>
    ensures { OnOk result
        (splices.new.items
        ≡ splices.old.items ++ styled_to (I.instance_of instances.now) text.now import.now target) }
{
    match target {
        Some(name) => {
            let plan = instances.instance(&name);
            put_styled(alloc, splices, text, import, &name, plan)
        }
        None => Ok(()),
    }
}

fn put_styled(
    alloc: Global,
    splices: &mut Vec<Splice>,
    text: &[u8],
    import: &StyleImport,
    name: &ModName,
    plan: Option<PlanId>,
) -> Result<(), AllocError>
    ensures { OnOk result
        (splices.new.items ≡ splices.old.items ++ styled text.now import.now name.now plan) }
{
    match plan {
        Some(plan) => {
            let splice = address_splice(alloc, text, import.address, name, plan, import.quoting)?;
            splices.push(splice)?;
            Ok(())
        }
        None => Ok(()),
    }
}

/// The URL of an instance in the place of an address. Where no double quotes stand around the address, they
/// are put around the URL, which may have single ones and parentheses.
fn address_splice(
    alloc: Global,
    text: &[u8],
    address: Span,
    name: &ModName,
    plan: PlanId,
    quoting: Quoting,
) -> Result<Splice, AllocError>
    ensures { IfOk result
        (λ splice. splice ≡ address_splice text.now address name.now plan quoting) }
{
    let start = address.start as usize;
    let end = address.end as usize;
    match quoting {
        Quoting::Double => {
            let by = url(alloc, name, plan)?;
            Ok(Splice {
                start,
                end,
                by: Sequence::from_vec(by),
            })
        }
        Quoting::Single => {
            let by = quoted_url(alloc, name, plan)?;
            Ok(Splice {
                start: start.saturating_sub(1),
                end: quote_end(text, address),
                by: Sequence::from_vec(by),
            })
        }
        Quoting::Bare => {
            let by = quoted_url(alloc, name, plan)?;
            Ok(Splice {
                start,
                end,
                by: Sequence::from_vec(by),
            })
        }
    }
}

fn url(alloc: Global, name: &ModName, plan: PlanId) -> Result<Vec<u8>, AllocError>
    ensures { IfOk result (λ url. url.items ≡ url_of name.now (Some plan)) }
{
    let mut url = Vec::new(alloc);
    write_url(alloc, &mut url, name, Some(plan))?;
    Ok(url)
}

fn quoted_url(alloc: Global, name: &ModName, plan: PlanId) -> Result<Vec<u8>, AllocError>
    ensures { IfOk result (λ url. url.items ≡ quoted_url name.now plan) }
{
    let mut url = Vec::new(alloc);
    url.push(b'"')?;
    write_url(alloc, &mut url, name, Some(plan))?;
    url.push(b'"')?;
    Ok(url)
}

/// Where what follows an address and its quote begins; a text may end without the quote.
fn quote_end(text: &[u8], address: Span) -> usize
    ensures { result ≡ quote_end text.now address }
{
    let end = address.end as usize;
    if end < text.len() { end + 1 } else { end }
}

fn address_bytes(text: &[u8], address: Span) -> &[u8]
    ensures { result.now ≡ address_bytes text.now address }
{
    let start = address.start as usize;
    let end = address.end as usize;
    if start <= end && end <= text.len() {
        &text[start..end]
    } else {
        &[]
    }
}
