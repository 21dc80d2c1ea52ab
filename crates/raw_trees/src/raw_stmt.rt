// Statements and callbacks as the grammar tells them.
use crate::{NameAt, RawExpr};
use hmr_types::{Name, Text};

/// A statement.
#[derive(Drop)]
pub enum RawStmt {
    /// A line of the console, from these values.
    Log(Vec<RawExpr>),
    /// A new value for a name.
    Assign(NameAt, RawExpr),
    /// A new value for a key of what a name is.
    Set(NameAt, Name, RawExpr),
    /// A new value for a key of the bag.
    SetBag(Name, RawExpr),
    /// `throw` of this value, or of an error with this text.
    Throw(RawExpr),
    /// `invalidate`, whose `import` stands at this place, perhaps with a message.
    Invalidate(u32, Option<RawExpr>),
    /// The first statements where the condition holds, and else the second.
    Branch(RawExpr, Vec<RawStmt>, Vec<RawStmt>),
}

/// A callback.
#[derive(Drop)]
pub struct RawHandler {
    /// Its parameters, in order.
    pub params: Vec<NameAt>,
    /// Its statements, in order.
    pub body: Vec<RawStmt>,
}

/// A handler that runs at most once.
#[derive(Drop)]
pub enum RawOnce {
    /// A callback.
    Code(RawHandler),
    /// The closure of the embedding program that has this label.
    Host(Text),
}
