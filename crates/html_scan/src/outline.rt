// What a scan tells of a page.
//
// Places are counts of bytes from the start of the text.
ghost use Rattle.std.specs.Prelude.{◌≡◌, ◌≤◌, OnOk};
ghost use Rattle.html_scan.specs.Pages.{IsHead, IsItem, IsPageOf, end_of_item, reach};

use std::alloc::{AllocError, Global};

/// The bytes `start..end` of a text.
#[derive(Clone, Copy, Debug, PartialEq, Eq)]
pub struct Span {
    /// The place of the first byte.
    pub start: u32,
    /// The place behind the last byte.
    pub end: u32,
}

/// How the value of an attribute is written.
#[derive(Clone, Copy, Debug, PartialEq, Eq)]
pub enum Quoting {
    /// Between `"` and `"`.
    Double,
    /// Between `'` and `'`.
    Single,
    /// Without quotes.
    Bare,
}

/// An attribute that has a value.
#[derive(Clone, Copy, Debug, PartialEq, Eq)]
pub struct Attribute {
    /// The value as it is written, without its quotes. It isn't empty.
    pub value: Span,
    /// How it is written.
    pub quoting: Quoting,
    /// Whether a `&` stands in it, so that [`attribute_value`](crate::attribute_value) may differ from it.
    pub has_references: bool,
}

/// What a tag of a page loads or holds.
#[derive(Clone, Copy, Debug, PartialEq, Eq)]
pub enum PagePart {
    /// `<script type="module" src="..">`: its address.
    ModuleScript(Attribute),
    /// `<script type="module">`: the module between its tags.
    InlineModule(Span),
    /// `<script src="..">` of a JavaScript type, without `nomodule`: its address.
    ClassicScript(Attribute),
    /// `<script type="importmap">`: the JSON between its tags.
    ImportMap(Span),
    /// `<link rel="stylesheet" href="..">`, neither alternate nor disabled: its address.
    Stylesheet(Attribute),
}

/// A tag that loads or holds something.
#[derive(Clone, Copy, Debug, PartialEq, Eq)]
pub struct PageItem {
    /// The start tag, from its `<` to behind its `>`.
    pub tag: Span,
    /// What it loads or holds.
    pub part: PagePart,
}

/// What a page loads and holds.
#[derive(Drop)]
pub struct PageOutline {
    /// Where a first script goes: behind the tag `<head>`, else behind `<html>`, else behind the doctype, else
    /// at the start, behind a byte order mark. No other start tag is before it.
    pub head: u32,
    /// The tags that load or hold something, in the order of the text.
    pub items: Vec<PageItem>,
}

impl PageOutline {
    /// Nothing is found yet.
    #[tactic(auto, using(crate::proofs::Growth::page_empty, crate::proofs::Growth::reach_empty))]
    pub(crate) fn new(alloc: Global, _text: &[u8], head: u32) -> PageOutline
        requires head { IsHead _text.now head }
        ensures sound { IsPageOf _text.now result }
        ensures reach { reach result ≡ head }
    {
        PageOutline {
            head,
            items: Vec::new(alloc),
        }
    }

    /// Puts an item behind all that was found. `_text` is there for the clauses alone.
    #[tactic(auto, using(crate::proofs::Growth::page_put, crate::proofs::Growth::reach_put))]
    pub(crate) fn put(&mut self, _text: &[u8], item: PageItem) -> Result<(), AllocError>
        requires sound { IsPageOf _text.now self.old }
        requires item { IsItem _text.now item }
        requires behind { reach self.old ≤ item.tag.start }
        ensures sound { OnOk result (IsPageOf _text.now self.new) }
        ensures reach { OnOk result (reach self.new ≡ end_of_item item) }
    {
        self.items.push(item)?;
        Ok(())
    }
}
