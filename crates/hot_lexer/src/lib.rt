//! The lexer: the tokens of a module text, or its first fault.
//!
//! [`lex`] goes over a text once, piece by piece. A piece is a blank, a comment or a token, and is
//! the longest that begins so. Blanks are passed a run at a time. Each reader is given the first byte
//! of its piece and the bytes after it, and says what the piece is and how many bytes it has. The token
//! of a name is a part of the text, and takes no memory of its own.
//!
//! Stands on `hmr_types`, for texts and limits, on `byte_lanes`, for long runs of bytes, and on
//! `module_semantics`, whose `lexing` it computes; the laws there say that this is what the rules on
//! whole texts mean. Keeps: every place
//! counts bytes from the text's start. Knows nothing of the grammar, of lines or of files.
#![tactic(auto)]

mod bytes;
mod comment;
mod lexer;
mod name;
mod number;
mod piece;
mod punct;
mod run;
mod stop;
mod text;
mod token;

pub use lexer::lex;
pub use module_semantics::{LexFault, LexKind};
pub use punct::Punct;
pub use token::{Token, TokenKind};
