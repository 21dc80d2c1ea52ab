//! Module texts as the grammar tells them: items, statements and expressions, with names where they stand.
//!
//! Who reads a text builds these, and who asks the rules on names goes over them: neither stands on the
//! other. Stands on `hmr_types`, for names and texts, on `module_tree`, for operators, and on
//! `module_semantics`, for the plain data that they stand for (`raw_items_of`). Keeps: a row of operators
//! of one strength is one node, so only what stands inside something else is deep. Knows nothing of tokens,
//! of the grammar or of what a name means.
#![tactic(auto)]

mod name_at;
mod raw_expr;
mod raw_item;
mod raw_stmt;

pub use name_at::NameAt;
pub use raw_expr::RawExpr;
pub use raw_item::{RawImport, RawItem};
pub use raw_stmt::{RawHandler, RawOnce, RawStmt};
