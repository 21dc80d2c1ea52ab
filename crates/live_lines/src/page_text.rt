// What a terminal shows of a page.
ghost use Rattle.std.specs.Prelude.{◌≡◌, ◌++◌, OnOk, codes};
ghost use Rattle.std.specs.List.{flat_map};
ghost use Rattle.live_lines.specs.PageLines.{abort_text, aborted_text, broken_text, by_text, changed_text};
ghost use Rattle.live_lines.specs.PageLines.{each_below, hot_text, link_text, missing_text, or_nothing};
ghost use Rattle.live_lines.specs.PageLines.{page_number, page_text};
ghost use Rattle.live_lines.specs.PageLines.{plural_text, refused_words, reload_text, stale_list, stale_part, stays_text};
ghost use Rattle.live_lines.specs.Texts.{arrow, on, off};

use crate::boundaries::boundaries_of;
use crate::items::Item;
use crate::lists::{put_list, put_path};
use crate::pieces::{put, put_between, put_both, put_counted, put_off, put_on, put_shown};
use crate::{PageNews, StaleBinding, Style};
use hmr_types::{ClientId, ModName, ReloadCause, Text, Ver};
use std::alloc::{AllocError, Global};
use update_msgs::AbortCause;
use word_texts::cause_str;

/// Puts what changed on a page.
pub(crate) fn put_page_news(
    out: &mut Vec<u8>,
    alloc: Global,
    style: Style,
    client: ClientId,
    news: &PageNews,
) -> Result<(), AllocError>
    ensures { OnOk result (out.new.items ≡ out.old.items ++ page_text style client news.now) }
{
    match news {
        PageNews::Opened { roots } => {
            put_page(out, client)?;
            put(out, " opened: ")?;
            put_list(out, roots.as_slice())
        }
        PageNews::Refused { code } => {
            put(out, "a page isn't taken: ")?;
            put(out, refused_str(*code))
        }
        PageNews::Loaded { modules } => {
            put_page(out, client)?;
            put(out, " loaded, ")?;
            put_plural(out, *modules, "module")
        }
        PageNews::Reload { cause, path } => put_reload(out, style, client, *cause, path.as_slice()),
        PageNews::Hot {
            changed,
            accepted,
            stale,
        } => put_hot(
            out,
            alloc,
            style,
            client,
            changed.as_slice(),
            accepted.as_slice(),
            stale.as_slice(),
        ),
        PageNews::Aborted {
            cause,
            path,
            from,
            name,
        } => put_aborted(out, style, client, *cause, path, from, name),
        PageNews::Pruned { names } => {
            put_page(out, client)?;
            put(out, " pruned ")?;
            put_list(out, names.as_slice())
        }
        PageNews::Closed => {
            put_page(out, client)?;
            put(out, " closed")
        }
    }
}

fn put_page(out: &mut Vec<u8>, client: ClientId) -> Result<(), AllocError>
    ensures { OnOk result (out.new.items ≡ out.old.items ++ page_number client) }
{
    put_counted(out, "page ", u64::from(client), "")
}

// Puts the arrow and the page.
fn put_to_page(out: &mut Vec<u8>, client: ClientId) -> Result<(), AllocError>
    ensures { OnOk result (out.new.items ≡ out.old.items ++ (arrow ++ codes " " ++ page_number client)) }
{
    put(out, "→ ")?;
    put_page(out, client)
}

fn put_plural(out: &mut Vec<u8>, count: u64, word: &str) -> Result<(), AllocError>
    ensures { OnOk result (out.new.items ≡ out.old.items ++ plural_text count word.now) }
{
    put_counted(out, "", count, " ")?;
    put(out, word)?;
    if count != 1 {
        put(out, "s")?;
    }
    Ok(())
}

fn refused_str(code: u8) -> &'static str
    ensures { result.now ≡ refused_words code }
{
    match code {
        2 => "32 pages are open",
        7 => "its roots are more than 16, or two of them are equal",
        _ => "it asked what it may not",
    }
}

// Puts a word in a colour.
fn put_word(out: &mut Vec<u8>, style: Style, code: &str, word: &str) -> Result<(), AllocError>
    ensures { OnOk result
        (out.new.items ≡ out.old.items ++ (on style code.now ++ word.now ++ off style)) }
{
    put_on(out, style, code)?;
    put(out, word)?;
    put_off(out, style)
}

fn put_reload(
    out: &mut Vec<u8>,
    style: Style,
    client: ClientId,
    cause: ReloadCause,
    path: &[ModName],
) -> Result<(), AllocError>
    ensures { OnOk result (out.new.items ≡ out.old.items ++ reload_text style client cause path.now) }
{
    put_to_page(out, client)?;
    put_word(out, style, "36", " reload")?;
    put(out, ": ")?;
    put_path(out, path)?;
    put_between(out, " (", cause_str(cause), ")")
}

fn put_hot(
    out: &mut Vec<u8>,
    alloc: Global,
    style: Style,
    client: ClientId,
    changed: &[(ModName, Ver)],
    accepted: &[(ModName, ModName)],
    stale: &[StaleBinding],
) -> Result<(), AllocError>
    ensures { OnOk result (out.new.items
        ≡ out.old.items ++ hot_text style client changed.now accepted.now stale.now) }
{
    let boundaries = boundaries_of(alloc, accepted)?;
    put_changed(out, changed)?;
    put_to_page(out, client)?;
    put_word(out, style, "32", " hot")?;
    put_by(out, &boundaries)?;
    put_stale_part(out, style, stale)
}

fn put_changed(out: &mut Vec<u8>, changed: &[(ModName, Ver)]) -> Result<(), AllocError>
    ensures { OnOk result (out.new.items ≡ out.old.items ++ changed_text changed.now) }
{
    if changed.is_empty() {
        return Ok(());
    }
    put_list(out, changed)?;
    put(out, " ")
}

fn put_by(out: &mut Vec<u8>, boundaries: &[ModName]) -> Result<(), AllocError>
    ensures { OnOk result (out.new.items ≡ out.old.items ++ by_text boundaries.now) }
{
    if boundaries.is_empty() {
        return Ok(());
    }
    put(out, " (accepted by ")?;
    put_list(out, boundaries)?;
    put(out, ")")
}

fn put_stale_part(out: &mut Vec<u8>, style: Style, stale: &[StaleBinding]) -> Result<(), AllocError>
    ensures { OnOk result (out.new.items ≡ out.old.items ++ stale_part style stale.now) }
{
    if stale.is_empty() {
        return Ok(());
    }
    put(out, " · ")?;
    put_on(out, style, "33")?;
    put(out, "stale: ")?;
    put_list(out, stale)?;
    put_off(out, style)
}

fn put_aborted(
    out: &mut Vec<u8>,
    style: Style,
    client: ClientId,
    cause: AbortCause,
    path: &ModName,
    from: &Option<ModName>,
    name: &Option<Text>,
) -> Result<(), AllocError>
    ensures { OnOk result (out.new.items
        ≡ out.old.items ++ aborted_text style client cause path.now from.now name.now) }
{
    put_stays(out, style, client)?;
    put_cause(out, cause, path, from, name)
}

fn put_stays(out: &mut Vec<u8>, style: Style, client: ClientId) -> Result<(), AllocError>
    ensures { OnOk result (out.new.items ≡ out.old.items ++ stays_text style client) }
{
    put_to_page(out, client)?;
    put_word(out, style, "31", " kept")?;
    put(out, ": ")
}

fn put_cause(
    out: &mut Vec<u8>,
    cause: AbortCause,
    path: &ModName,
    from: &Option<ModName>,
    name: &Option<Text>,
) -> Result<(), AllocError>
    ensures { OnOk result
        (out.new.items ≡ out.old.items ++ abort_text cause path.now from.now name.now) }
{
    match cause {
        AbortCause::Missing => put_missing(out, path),
        AbortCause::Broken => put_broken(out, path),
        AbortCause::Link => put_link(out, path, name_or_nothing(from), text_or_nothing(name)),
    }
}

fn put_missing(out: &mut Vec<u8>, path: &ModName) -> Result<(), AllocError>
    ensures { OnOk result (out.new.items ≡ out.old.items ++ missing_text path.now) }
{
    put_between(out, "the module ", path.as_str(), " is not served")
}

fn put_broken(out: &mut Vec<u8>, path: &ModName) -> Result<(), AllocError>
    ensures { OnOk result (out.new.items ≡ out.old.items ++ broken_text path.now) }
{
    put_between(out, "the text of ", path.as_str(), " cannot be read")
}

fn put_link(out: &mut Vec<u8>, path: &ModName, from: &str, name: &str) -> Result<(), AllocError>
    ensures { OnOk result (out.new.items ≡ out.old.items ++ link_text path.now from.now name.now) }
{
    put_both(out, path.as_str(), " imports ")?;
    put_shown(out, name)?;
    put(out, ", which ")?;
    put_both(out, from, " does not export")
}

fn text_or_nothing(text: &Option<Text>) -> &str
    ensures { result.now ≡ or_nothing text.now }
{
    match text {
        Some(text) => text.as_str(),
        None => "",
    }
}

fn name_or_nothing(name: &Option<ModName>) -> &str
    ensures { result.now ≡ or_nothing name.now }
{
    match name {
        Some(name) => name.as_str(),
        None => "",
    }
}

/// Puts the stale bindings of a page, each on a line of its own.
pub(crate) fn put_stale_list(
    out: &mut Vec<u8>,
    style: Style,
    client: ClientId,
    bindings: &[StaleBinding],
) -> Result<(), AllocError>
    ensures { OnOk result (out.new.items ≡ out.old.items ++ stale_list style client bindings.now) }
{
    put_page(out, client)?;
    put(out, " has ")?;
    put_plural(out, bindings.len() as u64, "stale binding")?;
    put_each(out, bindings)
}

fn put_each(out: &mut Vec<u8>, bindings: &[StaleBinding]) -> Result<(), AllocError>
    ensures { OnOk result (out.new.items ≡ out.old.items ++ each_below bindings.now) }
{
    for binding in bindings {
        put(out, "\n         ")?;
        binding.put_item(out)?;
    }
    Ok(())
}
