// Expressions as the grammar tells them. A row of operators of one strength is one node, whatever its
// length, so only what stands inside something else is deep.
use crate::NameAt;
use hmr_types::{Name, Text};
use module_tree::Op;

/// An expression.
#[derive(Drop)]
pub enum RawExpr {
    /// A number, as it is written.
    Num(u64),
    /// A text, with its escapes read.
    Text(Text),
    /// `undefined`.
    Undefined,
    /// A name that is read.
    Name(NameAt),
    /// A key of the bag.
    Bag(Name),
    /// A key of what a name is: by `?.` where it is safe, else by `.`.
    Member { base: NameAt, safe: bool, key: Name },
    /// The number with the other sign.
    Neg(Box<RawExpr>),
    /// A first operand, and then each operator with the operand at its right. They group to the left.
    Row(Box<RawExpr>, Vec<(Op, RawExpr)>),
    /// The second where the first counts as true, and else the third.
    Choose(Box<RawExpr>, Box<RawExpr>, Box<RawExpr>),
}
