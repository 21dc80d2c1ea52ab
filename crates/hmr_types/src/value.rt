// What a variable of a module holds, and what ends an evaluation early.
use crate::{Name, Text};

/// A value of the module language. A number that an evaluation makes is whole and within plus or minus
/// 9007199254740991; the type itself doesn't ask it.
#[derive(Clone, Debug, Drop, Eq, PartialEq)]
pub enum Value {
    /// A number.
    Num(i64),
    /// A text, which has at most 4,096 bytes where an evaluation makes it.
    Str(Text),
    /// `undefined`.
    Undef,
}

/// What a variable holds: nothing until its declaration was evaluated, then a value.
#[derive(Clone, Debug, Drop, Eq, PartialEq)]
pub enum Slot {
    /// The declaration wasn't evaluated.
    Unset,
    /// This value.
    Val(Value),
}

/// Why an evaluation or a handler's body ended early.
#[derive(Clone, Debug, Drop, Eq, PartialEq)]
pub enum EvalFault {
    /// A variable or an import of this name was read or assigned before it had a value.
    Uninitialised(Name),
    /// An operand had to be a number.
    NotNumber,
    /// A number outside plus or minus 9007199254740991, or a text over 4,096 bytes.
    Range,
    /// An export was read of a module that is undefined.
    UndefinedRead,
    /// A `throw` of this text.
    Thrown(Text),
    /// A new key for a bag that holds 64.
    BagFull,
}
