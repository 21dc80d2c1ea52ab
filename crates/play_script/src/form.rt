// The two forms of scripts.

/// Which commands a script has.
#[derive(Clone, Copy)]
pub enum Form {
    /// All commands, behind the roots of a page.
    Page,
    /// Edits and removals alone, without roots.
    Edits,
}
