//! What the page's client is told of files, as JSON: which names a file exports, and what it imports, by the
//! modules of the folder.
//!
//! The client says by it which bindings are stale, and words a link that the browser refused; it evaluates and
//! links nothing by it. Stands on `es_scan`, `html_scan` and `css_scan` for what stands in the texts, on
//! `file_names`, `page_addresses` and `page_skeletons` for where specifiers, addresses and import maps lead, and
//! on `serde_json`. Keeps: nothing. Knows nothing of versions and requests.
#![tactic(auto)]

mod lines;
mod names;
mod page;
mod script;
mod style;

pub use page::page_report;
pub use script::script_report;
pub use style::{data_report, style_report};
