// Why there is no core.

/// Why there is no core of these roots.
#[derive(Clone, Copy, Debug, PartialEq, Eq)]
pub enum NewFault {
    /// There are none.
    NoRoots,
    /// There are more than 16.
    TooManyRoots,
    /// A name is among them twice.
    DuplicateRoot,
}
