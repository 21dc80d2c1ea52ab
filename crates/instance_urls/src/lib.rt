//! Where the instances of the modules of a page are. The first instance of a module on a page has the plain
//! URL, its path. A later one has the plan that made it in its query: `/counter.js?hmr=5.2` was made by plan 2
//! of page 5.
//!
//! Stands on `hmr_types` and `file_names`, for names and the paths that they stand for, on `percent_encoding`
//! and `itoa`. Keeps: the text of a plan is read as that plan, and a URL has neither quotes nor backslashes, so
//! that between quotes it is a string literal as it is. Only a call that can return `AllocError` takes
//! memory. Knows nothing of texts, versions and requests.
#![tactic(auto)]

mod instances;
mod plan_id;
mod url;

pub use instances::Instances;
pub use plan_id::PlanId;
pub use url::{urls_need_no_escapes, write_url};
