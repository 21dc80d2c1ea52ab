// Words that mean something to a scan.

/// What a word means where it isn't the name of a property.
#[derive(Clone, Copy, PartialEq)]
pub(crate) enum Keyword {
    Import,
    Export,
    Function,
    Class,
    Extends,
    Async,
    /// `await`, before an operand.
    Await,
    Of,
    /// `if`, `while` and `with`, before a condition that a statement follows.
    Condition,
    For,
    /// `return` and `yield`, after which an operand stands on the same line.
    Return,
    /// A word before an operand.
    Prefix,
    /// `in` and `instanceof`, between operands.
    Infix,
    /// `var`, `let` and `const`.
    Declare,
    /// `else`, `do`, `try`, `finally` and `debugger`, before a statement.
    Begin,
    /// `break` and `continue`, after which a label stands on the same line.
    Jump,
    /// Any other word, which is an operand.
    Other,
}

/// What a word means.
pub(crate) fn keyword_of(word: &[u8]) -> Keyword {
    match word {
        b"import" => Keyword::Import,
        b"export" => Keyword::Export,
        b"function" => Keyword::Function,
        b"class" => Keyword::Class,
        b"extends" => Keyword::Extends,
        b"async" => Keyword::Async,
        b"await" => Keyword::Await,
        b"of" => Keyword::Of,
        b"if" | b"while" | b"with" => Keyword::Condition,
        b"for" => Keyword::For,
        b"return" | b"yield" => Keyword::Return,
        b"throw" | b"case" | b"delete" | b"void" | b"typeof" | b"new" => Keyword::Prefix,
        b"in" | b"instanceof" => Keyword::Infix,
        b"var" | b"let" | b"const" => Keyword::Declare,
        b"else" | b"do" | b"try" | b"finally" | b"debugger" => Keyword::Begin,
        b"break" | b"continue" => Keyword::Jump,
        _ => Keyword::Other,
    }
}
