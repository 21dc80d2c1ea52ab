// What a token tells: its characters, its number, or the punctuation that it is.
use crate::Kind;
use hmr_types::Text;

/// What a token tells. A name is the part of the text that it stands in, and no copy of it.
#[derive(Drop)]
pub enum TokenValue<'a> {
    /// A name or a word of the grammar's own.
    Name(&'a str),
    /// A whole number.
    Number(u64),
    /// A text, by what its characters and escapes stand for.
    Text(Text),
    /// The punctuation of this kind.
    Punct(Kind),
}
