// The line of a piece of news, as a terminal shows it.
ghost use Rattle.std.specs.Prelude.{◌≡◌, ◌++◌, IfOk, OnOk, codes};
ghost use Rattle.live_lines.specs.Lines.{body_text, line_text};

use crate::fault_text::put_fault;
use crate::news_text::{put_anew, put_away, put_edit, put_passed, put_stranger};
use crate::page_text::{put_page_news, put_stale_list};
use crate::pieces::{put, put_clock, put_off, put_on};
use crate::{Clock, News};
use std::alloc::{AllocError, Global};

/// Whether there are colours.
#[derive(Clone, Copy, Debug, PartialEq, Eq)]
pub enum Style {
    /// There are none.
    Plain,
    /// As a terminal shows them.
    Coloured,
}

/// The bytes of what a terminal shows of a piece of news, with the time before it and an LF at the end: one
/// line, but for a fault with a place, below which the line of the text stands with a caret, and for a
/// list of bindings, of which each has a line. It takes time linear in the bytes.
pub fn line_of(
    alloc: Global,
    clock: Clock,
    news: &News,
    style: Style,
) -> Result<Vec<u8>, AllocError>
    ensures { IfOk result (λ bytes. bytes.items ≡ line_text style clock news.now) }
{
    let mut out = Vec::new(alloc);
    put_on(&mut out, style, "2")?;
    put_clock(&mut out, clock)?;
    put_off(&mut out, style)?;
    put(&mut out, " ")?;
    put_body(&mut out, alloc, style, news)?;
    put(&mut out, "\n")?;
    Ok(out)
}

// Puts what stands behind the time.
fn put_body(out: &mut Vec<u8>, alloc: Global, style: Style, news: &News) -> Result<(), AllocError>
    ensures { OnOk result (out.new.items ≡ out.old.items ++ body_text style news.now) }
{
    match news {
        News::Saved { name, version } => put_edit(out, name, *version, " saved"),
        News::Removed { name, version } => put_edit(out, name, *version, " removed"),
        News::Fault {
            name,
            fault,
            line_text,
        } => put_fault(out, style, name, fault, line_text),
        News::Passed { path, cause } => put_passed(out, style, path, *cause),
        News::Page { client, news } => put_page_news(out, alloc, style, *client, news),
        News::Stale { client, bindings } => put_stale_list(
            out,
            style,
            *client,
            bindings.as_slice(),
        ),
        News::Stranger { foreign, told } => put_stranger(out, style, *foreign, told),
        News::Anew { cause } => put_anew(out, *cause),
        News::Away { away } => put_away(out, *away),
    }
}
