// The pass over a page: a token at a time.
ghost use Rattle.std.specs.Prelude.{◌≡◌, ◌≤◌, ◌<◌, ◌^◌, IfOk, IfSome, OnOk, length};
ghost use Rattle.html_scan.specs.Pages.{IsHead, IsPageOf, IsPart, end_of_part, reach};
ghost use Rattle.html_scan.specs.Tags.{IsContentEnd, IsTagAt};

use crate::attributes::{find_attribute, find_value};
use crate::context::Context;
use crate::elements::{Element, element_of};
use crate::links::stylesheet;
use crate::outline::{PageItem, PageOutline, PagePart, Span};
use crate::raw_text::{raw_text_end, script_end};
use crate::script_types::{ScriptType, script_type};
use crate::tokens::{Tag, Token, tag_end, token_at};
use std::alloc::{AllocError, Global};

/// What a page loads and holds.
///
/// The text is bytes of UTF-8, perhaps behind a byte order mark; whatever they are, none is refused. Tags are
/// those of the HTML standard's tokens, with scripting on: none is taken from a comment, a script, or another
/// element whose content is text. A script that isn't closed is none, since browsers don't run it, and so is
/// one without an address or content. What stands in a `<template>`, in `svg` and in `math` isn't looked at,
/// nor is `<base>`: addresses are as they are written.
///
/// It takes time linear in the text, no stack, and memory in proportion to what is found and to the longest
/// value of an attribute `type`, `language` or `rel`. It fails only where there is no memory.
pub fn scan_page(alloc: Global, text: &[u8]) -> Result<PageOutline, AllocError>
    requires short { length text.now < 2 ^ 32 }
    ensures sound { IfOk result (λ page. IsPageOf text.now page) }
{
    let head = head_place(text);
    let mut page = PageOutline::new(alloc, text, head as u32);
    let mut context = Context::new();
    let mut at = head;
    while at < text.len() {
        match token_at(text, at, context.is_foreign()) {
            Token::Start(tag) => at = start_tag(alloc, text, tag, &mut context, &mut page)?,
            Token::End(tag) => {
                context.end(element_of(text, tag.name));
                at = tag.span.end as usize;
            }
            Token::Doctype(end) => at = end,
            Token::Other(end) => at = end,
        }
    }
    Ok(page)
}

/// Where the byte order mark ends that a text may begin with.
fn mark_end(text: &[u8]) -> usize
    ensures within { result ≤ length text.now }
    ensures few { result ≤ 3 }
{
    match text {
        [0xEF, 0xBB, 0xBF, ..] => 3,
        _ => 0,
    }
}

/// Where a first script goes: behind `<head>`, else behind `<html>`, else behind the doctype, else at the
/// start.
fn head_place(text: &[u8]) -> usize
    requires short { length text.now < 2 ^ 32 }
    ensures head { IsHead text.now result }
{
    let start = mark_end(text);
    let mut head = start;
    let mut is_in_html = false;
    let mut at = start;
    while at < text.len() {
        match token_at(text, at, false) {
            Token::Start(tag) => {
                let end = tag.span.end as usize;
                match element_of(text, tag.name) {
                    Element::Head => return end,
                    Element::Html if !is_in_html => {
                        is_in_html = true;
                        head = end;
                        at = end;
                    }
                    Element::Html => at = end,
                    _ => return head,
                }
            }
            Token::End(tag) => at = tag.span.end as usize,
            Token::Doctype(end) => {
                if !is_in_html {
                    head = end;
                }
                at = end;
            }
            Token::Other(end) => at = end,
        }
    }
    head
}

/// Reads a start tag, and what stands in its element where that is text: where the scan goes on.
fn start_tag(
    alloc: Global,
    text: &[u8],
    tag: Tag,
    context: &mut Context,
    page: &mut PageOutline,
) -> Result<usize, AllocError>
    requires tag { IsTagAt text.now tag.span.start tag }
    requires short { length text.now < 2 ^ 32 }
    requires sound { IsPageOf text.now page.old }
    requires reach { reach page.old ≤ tag.span.start }
    ensures end { IfOk result (λ end. (tag.span.start < end) × (end ≤ length text.now)) }
    ensures sound { OnOk result (IsPageOf text.now page.new) }
    ensures reach { IfOk result (λ end. reach page.new ≤ end) }
{
    let end = tag.span.end as usize;
    let element = element_of(text, tag.name);
    if !context.start(element, tag.is_self_closing) {
        return Ok(end);
    }
    match element {
        Element::Script => script(alloc, text, tag, context.is_live(), page),
        Element::Link if context.is_live() => {
            link(alloc, text, tag, page)?;
            Ok(end)
        }
        Element::RawText => Ok(raw_text_end(
            text,
            end,
            &text[tag.name.start as usize..tag.name.end as usize],
        )),
        Element::PlainText => Ok(text.len()),
        _ => Ok(end),
    }
}

/// Reads a `<link>`.
fn link(alloc: Global, text: &[u8], tag: Tag, page: &mut PageOutline) -> Result<(), AllocError>
    requires tag { IsTagAt text.now tag.span.start tag }
    requires short { length text.now < 2 ^ 32 }
    requires sound { IsPageOf text.now page.old }
    requires reach { reach page.old ≤ tag.span.start }
    ensures sound { OnOk result (IsPageOf text.now page.new) }
    ensures reach { OnOk result (reach page.new ≤ tag.span.end) }
{
    if let Some(address) = stylesheet(alloc, text, tag)? {
        page.put(
            text,
            PageItem {
                tag: tag.span,
                part: PagePart::Stylesheet(address),
            },
        )?;
    }
    Ok(())
}

/// Reads a script from behind its start tag to behind its end tag: where the scan goes on.
fn script(
    alloc: Global,
    text: &[u8],
    tag: Tag,
    is_live: bool,
    page: &mut PageOutline,
) -> Result<usize, AllocError>
    requires tag { IsTagAt text.now tag.span.start tag }
    requires short { length text.now < 2 ^ 32 }
    requires sound { IsPageOf text.now page.old }
    requires reach { reach page.old ≤ tag.span.start }
    ensures end { IfOk result (λ end. (tag.span.start < end) × (end ≤ length text.now)) }
    ensures sound { OnOk result (IsPageOf text.now page.new) }
    ensures reach { IfOk result (λ end. reach page.new ≤ end) }
{
    let Some(content) = script_end(text, tag.span.end as usize) else {
        return Ok(text.len());
    };
    let Some(close) = tag_end(text, content + 8) else {
        return Ok(text.len());
    };
    if is_live {
        put_script(alloc, text, tag, content, page)?;
    }
    Ok(close.at)
}

/// Puts the script of a tag whose content ends at a place, where a browser runs it or reads it.
fn put_script(
    alloc: Global,
    text: &[u8],
    tag: Tag,
    content_end: usize,
    page: &mut PageOutline,
) -> Result<(), AllocError>
    requires tag { IsTagAt text.now tag.span.start tag }
    requires short { length text.now < 2 ^ 32 }
    requires content { IsContentEnd text.now tag.span.end content_end }
    requires sound { IsPageOf text.now page.old }
    requires reach { reach page.old ≤ tag.span.start }
    ensures sound { OnOk result (IsPageOf text.now page.new) }
    ensures reach { OnOk result (reach page.new ≤ content_end) }
{
    if let Some(part) = script_part(alloc, text, tag, content_end)? {
        page.put(
            text,
            PageItem {
                tag: tag.span,
                part,
            },
        )?;
    }
    Ok(())
}

/// What a script loads or holds whose content ends at a place.
fn script_part(
    alloc: Global,
    text: &[u8],
    tag: Tag,
    content_end: usize,
) -> Result<Option<PagePart>, AllocError>
    requires tag { IsTagAt text.now tag.span.start tag }
    requires short { length text.now < 2 ^ 32 }
    requires content { IsContentEnd text.now tag.span.end content_end }
    ensures part { IfOk result (λ r. IfSome r (λ part. IsPart text.now tag.span part)) }
    ensures end { IfOk result (λ r. IfSome r (λ part. end_of_part tag.span part ≤ content_end)) }
{
    let content = Span {
        start: tag.span.end,
        end: content_end as u32,
    };
    let is_external = find_attribute(text, tag, b"src").is_some();
    match script_type(alloc, text, tag)? {
        ScriptType::Module if !is_external => Ok(Some(PagePart::InlineModule(content))),
        ScriptType::Module => Ok(module_script(text, tag)),
        ScriptType::Classic => Ok(classic_script(text, tag)),
        ScriptType::ImportMap if !is_external => Ok(Some(PagePart::ImportMap(content))),
        ScriptType::ImportMap | ScriptType::Data => Ok(None),
    }
}

/// A module script, where it has an address.
fn module_script(text: &[u8], tag: Tag) -> Option<PagePart>
    requires tag { IsTagAt text.now tag.span.start tag }
    requires short { length text.now < 2 ^ 32 }
    ensures part { IfSome result (λ part. IsPart text.now tag.span part) }
    ensures end { IfSome result (λ part. end_of_part tag.span part ≡ tag.span.end) }
{
    let address = find_value(text, tag, b"src")?;
    Some(PagePart::ModuleScript(address))
}

/// A classic script, where it has an address, and no `nomodule`, by which browsers that run modules leave it.
fn classic_script(text: &[u8], tag: Tag) -> Option<PagePart>
    requires tag { IsTagAt text.now tag.span.start tag }
    requires short { length text.now < 2 ^ 32 }
    ensures part { IfSome result (λ part. IsPart text.now tag.span part) }
    ensures end { IfSome result (λ part. end_of_part tag.span part ≡ tag.span.end) }
{
    if find_attribute(text, tag, b"nomodule").is_some() {
        return None;
    }
    let address = find_value(text, tag, b"src")?;
    Some(PagePart::ClassicScript(address))
}
