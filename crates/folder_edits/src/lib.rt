//! What a server of a folder does in the thread of its caller, beside the jobs in threads of their own: the
//! first scan and its edits, the later edits, and the report at the end with the record behind it.
//!
//! [`share_hub`] makes its hub, [`open_folder`] the edits that bring the modules of a folder, [`announce`]
//! writes its port, [`edit_to_the_end`] makes the edits between later scans and those of a script,
//! [`settle_after`] works what is left of jobs, [`write_end`] writes what it all came to, and [`write_last`]
//! the line of a limit. The definitions say of the whole of a server what
//! it did and wrote. Stands on `folder_watch` for folders, on `hub_editor` for edits, on `crew_plans` for
//! what the jobs leave and on `serve_reports` for the report. Keeps: each edit is made once and in order,
//! and none after a stop; what is written is the report of one transcript, and of its record the check of
//! records says yes. Knows nothing of how jobs are begun and finished, of clients, or of the net.
#![tactic(auto)]

mod changes;
mod context;
mod ending;
mod opening;
mod recording;
mod rounds;
mod setup;
mod stop;
mod working;

pub use context::{Editing, LaterEdits, ServerContext};
pub use ending::{RunEnd, end_of, write_end, write_last};
pub use opening::open_folder;
pub use setup::{SharedHub, announce, share_hub};
pub use stop::{Limit, ServeStop};
pub use working::{edit_to_the_end, settle_after};
