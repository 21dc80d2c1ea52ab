//! A table in one block of bytes, for keeping: 9 bytes for each module beside its name, where a `Table` has a
//! string of its own for each name.
//!
//! Stands on `hmr_types`, for tables, names and versions. Keeps: what is unpacked is the table that was packed.
//! Knows nothing of events and of who keeps tables.
#![tactic(auto)]

mod row;
mod table;

pub use table::PackedTable;
