// What is open: brackets, by what the text inside them is, and the heritage of a class.

/// What is open.
#[derive(Clone, Copy, PartialEq)]
pub(crate) enum FrameKind {
    /// The whole module; nothing is open.
    Module,
    /// Braces round statements, behind which a statement begins.
    Block,
    /// The body of a function expression.
    FunctionBody,
    /// The body of an arrow function.
    ArrowBody,
    /// The body of a method, a getter, a setter or a static block.
    MethodBody,
    /// The braces of an object, where a key stands.
    ObjectKey,
    /// The same, behind a key's colon.
    ObjectValue,
    /// The braces of a pattern whose names are exported, where a key stands.
    PatternKey,
    /// The same, behind a key's colon.
    PatternValue,
    /// The brackets of a pattern whose names are exported.
    ArrayPattern,
    /// The body of a class declaration, where the name of an element stands.
    ClassKey,
    /// The same, behind the `=` of a field.
    ClassValue,
    /// The body of a class expression, where the name of an element stands.
    ClassExpressionKey,
    /// The same, behind the `=` of a field.
    ClassExpressionValue,
    /// No bracket: from `extends` to the body of a class declaration.
    Heritage,
    /// The same of a class expression.
    ExpressionHeritage,
    /// Parentheses.
    Parentheses,
    /// Parentheses round a condition, behind which a statement begins.
    Condition,
    /// The head of a `for`.
    ForHead,
    /// Parameters of a function declaration.
    Parameters,
    /// Parameters of a function expression.
    ExpressionParameters,
    /// Square brackets.
    SquareBrackets,
    /// The `${` of a substitution in a template.
    Substitution,
}

/// Whether a list of declared names stands here, between commas.
#[derive(Clone, Copy, PartialEq)]
pub(crate) enum Declares {
    Nothing,
    Local,
    Exported,
}

/// What is open, and how far the text in it is.
#[derive(Clone, Copy, PartialEq)]
pub(crate) struct Frame {
    pub kind: FrameKind,
    pub declares: Declares,
    /// How many `?` wait for their `:`.
    pub questions: u32,
    /// Where it was opened.
    pub at: u32,
}

/// The frame of the whole module.
pub(crate) const MODULE: Frame = Frame {
    kind: FrameKind::Module,
    declares: Declares::Nothing,
    questions: 0,
    at: 0,
};

impl FrameKind {
    /// Whether statements stand in it.
    pub fn has_statements(self) -> bool {
        matches!(
            self,
            FrameKind::Module
                | FrameKind::Block
                | FrameKind::FunctionBody
                | FrameKind::ArrowBody
                | FrameKind::MethodBody
        )
    }

    /// Whether a key of an object or the name of a class element stands here.
    pub fn wants_key(self) -> bool {
        matches!(
            self,
            FrameKind::ObjectKey
                | FrameKind::PatternKey
                | FrameKind::ClassKey
                | FrameKind::ClassExpressionKey
        )
    }

    /// What it is behind a comma, a semicolon or the end of a field.
    pub fn next_key(self) -> FrameKind {
        match self {
            FrameKind::ObjectValue => FrameKind::ObjectKey,
            FrameKind::PatternValue => FrameKind::PatternKey,
            FrameKind::ClassValue => FrameKind::ClassKey,
            FrameKind::ClassExpressionValue => FrameKind::ClassExpressionKey,
            other => other,
        }
    }

    /// What it is behind a key's colon or `=`.
    pub fn value(self) -> FrameKind {
        match self {
            FrameKind::ObjectKey => FrameKind::ObjectValue,
            FrameKind::PatternKey => FrameKind::PatternValue,
            FrameKind::ClassKey => FrameKind::ClassValue,
            FrameKind::ClassExpressionKey => FrameKind::ClassExpressionValue,
            other => other,
        }
    }

    /// Whether the value of a class field stands here.
    pub fn is_class_value(self) -> bool {
        matches!(
            self,
            FrameKind::ClassValue | FrameKind::ClassExpressionValue
        )
    }
}
