// What the lexer gives: tokens, each with its place in the text.
use crate::Punct;
use hmr_types::Text;

/// What a token is. A name is the part of the text that it stands in, and no copy of it.
#[derive(Drop)]
pub enum TokenKind<'a> {
    /// A name or a word of the grammar's own.
    Name(&'a str),
    /// A whole number, at most 9007199254740991.
    Number(u64),
    /// A text, by what its characters and escapes stand for.
    Text(Text),
    Punct(Punct),
}

/// A token of a text.
#[derive(Drop)]
pub struct Token<'a> {
    pub kind: TokenKind<'a>,
    /// The place of its first byte, from 0.
    pub at: u32,
    /// How many bytes it has in the text, quotes and escapes included.
    pub len: u32,
}
