// Items as the grammar tells them. The items of a guard stand in its place.
use crate::{NameAt, RawExpr, RawHandler, RawOnce, RawStmt};
use hmr_types::{Name, Text};

/// An exported name that is imported, and the local name that it has in the importer.
#[derive(Debug, Drop)]
pub struct RawImport {
    /// The name that the imported module exports.
    pub exported: Name,
    /// The name that it has in the importer, where it stands.
    pub local: NameAt,
}

/// One item of a module.
#[derive(Drop)]
pub enum RawItem {
    /// An `import` of these names, perhaps none.
    Import {
        spec: Text,
        names: Vec<RawImport>,
    },
    /// A declaration: by `let` where it is mutable, else by `const`.
    Declare {
        exported: bool,
        mutable: bool,
        name: NameAt,
        value: RawExpr,
    },
    /// A statement at the top of the module.
    Act(RawStmt),
    /// `accept` of the module itself, perhaps with a handler.
    Own(Option<RawOnce>),
    /// `accept` of one dependency, or of a list of them, perhaps with a callback.
    Deps {
        list: bool,
        specs: Vec<Text>,
        call: Option<RawHandler>,
    },
    /// `on`: a callback of the event of this name, which stands where its text does.
    On {
        event: NameAt,
        call: RawHandler,
    },
    /// `dispose` with a handler.
    Dispose(RawOnce),
    /// `prune` with a handler.
    Prune(RawOnce),
    /// `decline`.
    Decline,
}
