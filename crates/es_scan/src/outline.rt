// What a scan tells of a module.
//
// Places are counts of bytes from the start of the text. Lists are flat: what belongs to a module specifier
// or to a call are rows of another list, so that a scan needs no memory for each of them.

/// The bytes `start..end` of a text.
#[derive(Clone, Copy, Debug, PartialEq, Eq)]
pub struct Span {
    /// The place of the first byte.
    pub start: u32,
    /// The place behind the last byte.
    pub end: u32,
}

/// The rows `from..to` of a list of an [`Outline`].
#[derive(Clone, Copy, Debug, PartialEq, Eq)]
pub struct Rows {
    /// The first row, from 0.
    pub from: usize,
    /// The row behind the last one.
    pub to: usize,
}

/// What a module specifier is for. The names of the forms are those of ECMA-262.
#[derive(Clone, Copy, Debug, PartialEq, Eq)]
pub enum Purpose {
    /// An ImportDeclaration. Its names are rows of [`Outline::imports`].
    Import,
    /// An ExportDeclaration with NamedExports, or with `* as` and a name. Its names are rows of
    /// [`Outline::exports`].
    Export,
    /// `export * from`: every name but `default` is exported again. It has no rows.
    ExportAll,
    /// The first argument of an ImportCall, `import("..")`. It has no rows.
    ImportCall,
    /// An argument of `import.meta.hot.accept`, or an element of its array. It has no rows.
    Accept,
}

/// The phase up to which an import takes a module.
#[derive(Clone, Copy, Debug, PartialEq, Eq)]
pub enum Phase {
    /// The module is evaluated, as by every import without a word for its phase.
    Evaluation,
    /// `import defer * as ns from ".."` and `import.defer("..")`: evaluated at the first use.
    Defer,
    /// `import source x from ".."` and `import.source("..")`: its source alone is taken.
    Source,
}

/// A string literal that names a module.
#[derive(Clone, Copy, Debug, PartialEq, Eq)]
pub struct ModuleSpecifier {
    /// What it is for.
    pub purpose: Purpose,
    /// The phase of the import, [`Phase::Evaluation`] for all that is no import.
    pub phase: Phase,
    /// Where the declaration or the call begins: the place of its word `import` or `export`.
    pub statement: u32,
    /// The literal with its quotes.
    pub literal: Span,
    /// The string literal that the attribute `type` has, as in `with { type: "json" }`, with its quotes. None
    /// for an ImportCall, whose options are a value, and for an argument of `accept`.
    pub type_attribute: Option<Span>,
    /// The names that the declaration imports or exports, as its purpose says.
    pub names: Rows,
}

/// What an import declaration takes of a module for one of its names.
#[derive(Clone, Copy, Debug, PartialEq, Eq)]
pub enum Imported {
    /// All of it, by `* as`.
    Namespace,
    /// Its default export; in the phase of a source, the source.
    Default,
    /// The export of this name: an IdentifierName, or a string literal with its quotes.
    Name(Span),
}

/// A name that an import declaration binds.
#[derive(Clone, Copy, Debug, PartialEq, Eq)]
pub struct ImportBinding {
    /// What it stands for.
    pub imported: Imported,
    /// The name in this module.
    pub local: Span,
}

/// A name that the module exports.
#[derive(Clone, Copy, Debug, PartialEq, Eq)]
pub struct ExportedName {
    /// The name for importers: an IdentifierName, a string literal with its quotes, or the word `default`.
    pub name: Span,
    /// What stands for it in this module, or in the module from which it is exported again. None for
    /// `export default` and for `export * as`.
    pub local: Option<Span>,
}

/// What a call of `import.meta.hot.accept` accepts.
#[derive(Clone, Copy, Debug, PartialEq, Eq)]
pub enum Accepted {
    /// The module that calls: the call has no argument, or one that is neither a string, an array nor a
    /// template.
    Itself,
    /// The modules of its specifiers.
    Modules,
    /// The modules of its specifiers, and something that is read off no text: a template, an element that is
    /// no string literal, or a name behind which a callback comes.
    Unclear,
}

/// A call of `import.meta.hot.accept`.
#[derive(Clone, Copy, Debug, PartialEq, Eq)]
pub struct Accept {
    /// What it accepts.
    pub accepted: Accepted,
    /// Where it begins: the place of its word `import`.
    pub call: u32,
    /// Its rows of [`Outline::specifiers`].
    pub specifiers: Rows,
}

/// What a module says to its importers and to a hot-reload server. Each list is in the order of the text.
#[derive(Drop)]
pub struct Outline {
    /// The string literals that name modules.
    pub specifiers: Vec<ModuleSpecifier>,
    /// The names that import declarations bind.
    pub imports: Vec<ImportBinding>,
    /// The names that the module exports.
    pub exports: Vec<ExportedName>,
    /// The calls `import.meta.hot.accept(..)`.
    pub accepts: Vec<Accept>,
    /// The calls `import.meta.hot.decline(..)`: each place of the word `import`.
    pub declines: Vec<u32>,
    /// The calls `import(..)` whose first argument isn't a string literal alone: each place of the word
    /// `import`. A template without substitutions counts here too.
    pub computed: Vec<u32>,
    /// Where an import or export declaration goes on in a form that isn't known: each place of the first
    /// token that isn't. Names before it are told, and what is behind it is read as statements.
    pub unclear: Vec<u32>,
    /// The place of the first `import.meta`.
    pub first_meta: Option<u32>,
    /// The HashbangComment, from its `#!` up to the end of its line.
    pub hashbang: Option<Span>,
    /// Where the first token begins that is no blank and no comment; the length of the text where none does.
    pub first_statement: u32,
}
