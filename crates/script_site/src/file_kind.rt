// What a file is, by the name of its module.
use hmr_types::ModName;

/// What a file is.
#[derive(Clone, Copy, Debug, PartialEq, Eq)]
pub(crate) enum FileKind {
    /// HTML.
    Page,
    /// CSS.
    Style,
    /// JSON.
    Data,
    /// JavaScript.
    Script,
}

/// What the file is that a module stands for, by what its name ends in.
pub(crate) fn kind_of(name: &ModName) -> FileKind {
    let name = name.as_bytes();
    if name.ends_with(b".html") || name.ends_with(b".htm") {
        FileKind::Page
    } else if name.ends_with(b".css") {
        FileKind::Style
    } else if name.ends_with(b".json") {
        FileKind::Data
    } else {
        FileKind::Script
    }
}
