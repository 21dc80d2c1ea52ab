// Where a statement stands, which says what its names mean.
use crate::name_table::NameTable;

/// Where a statement stands: in no callback, or in one with these parameters.
#[derive(Clone, Copy)]
pub enum Within<'a> {
    /// In no callback.
    Outside,
    /// In a callback of `dispose` or `prune`.
    Once(&'a NameTable<'a>),
    /// In a callback of `accept` or `on`.
    Accept(&'a NameTable<'a>),
}
