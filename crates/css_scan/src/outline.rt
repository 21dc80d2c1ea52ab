// What a scan tells of a stylesheet.
//
// Places are counts of bytes from the start of the text.
ghost use Rattle.std.specs.Prelude.{◌≡◌, ◌≤◌, OnOk};
ghost use Rattle.css_scan.specs.Styles.{IsImport, IsStyleOf, reach};

use std::alloc::{AllocError, Global};

/// The bytes `start..end` of a text.
#[derive(Clone, Copy, Debug, PartialEq, Eq)]
pub struct Span {
    /// The place of the first byte.
    pub start: u32,
    /// The place behind the last byte.
    pub end: u32,
}

/// How an address is written.
#[derive(Clone, Copy, Debug, PartialEq, Eq)]
pub enum Quoting {
    /// Between `"` and `"`.
    Double,
    /// Between `'` and `'`.
    Single,
    /// Between the parentheses of `url(..)`, without quotes.
    Bare,
}

/// An `@import` rule that counts.
#[derive(Clone, Copy, Debug, PartialEq, Eq)]
pub struct StyleImport {
    /// Where the rule begins: the place of its `@`.
    pub rule: u32,
    /// The address, without quotes, parentheses and the blanks around it. It may be empty.
    pub address: Span,
    /// How it is written.
    pub quoting: Quoting,
    /// Whether a backslash stands in it. Where none does, its bytes are the address itself.
    pub has_escapes: bool,
}

/// What a stylesheet imports.
#[derive(Drop)]
pub struct StyleOutline {
    /// The `@import` rules that count, in the order of the text.
    pub imports: Vec<StyleImport>,
}

impl StyleOutline {
    /// Nothing is found yet.
    #[tactic(auto, using(crate::proofs::Growth::style_empty, crate::proofs::Growth::reach_empty))]
    pub(crate) fn new(alloc: Global, _text: &[u8]) -> StyleOutline
        ensures sound { IsStyleOf _text.now result }
        ensures reach { reach result ≡ 0 }
    {
        StyleOutline {
            imports: Vec::new(alloc),
        }
    }

    /// Puts an `@import` rule behind all that was found. `_text` is there for the clauses alone.
    #[tactic(auto, using(crate::proofs::Growth::style_put, crate::proofs::Growth::reach_put))]
    pub(crate) fn put(&mut self, _text: &[u8], import: StyleImport) -> Result<(), AllocError>
        requires sound { IsStyleOf _text.now self.old }
        requires import { IsImport _text.now import }
        requires behind { reach self.old ≤ import.rule }
        ensures sound { OnOk result (IsStyleOf _text.now self.new) }
        ensures reach { OnOk result (reach self.new ≡ import.address.end) }
    {
        self.imports.push(import)?;
        Ok(())
    }
}
