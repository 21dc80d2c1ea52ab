// What may come next, which decides what a slash, a brace and a word are.

/// What may come next.
#[derive(Clone, Copy, PartialEq)]
pub(crate) enum State {
    /// A statement.
    Statement,
    /// An operand.
    Operand,
    /// The body of an arrow function.
    Arrow,
    /// What `export default` exports.
    Default,
    /// An operand on the same line, else a statement.
    Return,
    /// A label on the same line, else a statement.
    Jump,
    /// The parenthesis of a condition.
    Condition,
    /// The parenthesis of a `for`, or its `await`.
    For,
    /// A name that is declared, or a pattern.
    Binding,
    /// What goes on behind an operand, or a statement.
    After,
    /// What goes on behind a declared name: no division.
    Bound,
    /// What goes on behind `async`, where it began a statement.
    Async,
    /// What goes on behind `async`, where it began an operand.
    ExpressionAsync,
    /// The name of a property.
    Dot,
    /// What goes on behind the word `function` of a declaration.
    Function,
    /// The same of an expression.
    FunctionExpression,
    /// The body of a function declaration.
    Body,
    /// The body of a function expression.
    ExpressionBody,
    /// What goes on behind the word `class` of a declaration.
    Class,
    /// The same of an expression.
    ClassExpression,
}

impl State {
    /// Whether an operand ended here, so that a slash divides.
    pub fn is_after(self) -> bool {
        matches!(
            self,
            State::After
                | State::Bound
                | State::Async
                | State::ExpressionAsync
                | State::Dot
                | State::Function
                | State::FunctionExpression
                | State::Body
                | State::ExpressionBody
                | State::Class
                | State::ClassExpression
        )
    }

    /// Whether a word that begins an operand begins a statement here. Behind an operand it does so by the
    /// rules of automatic semicolon insertion.
    pub fn begins_statement(self) -> bool {
        matches!(
            self,
            State::Statement
                | State::Default
                | State::After
                | State::Bound
                | State::Async
                | State::ExpressionAsync
        )
    }
}
