//! The report of a server at its end: the transcript that all of its passes have seen together, the pages
//! of its clients, and what the program's own clients told.
//!
//! [`wind_up`] joins the passes that the jobs handed back and gives the lines, [`put_report_line`] their
//! bytes. Stands on `hmr_hub` for the report of a transcript, on `sessions` for what a client leaves and on
//! `play_text` for lines. Keeps: the report is that of one transcript, which has each call of each pass
//! once; the lines of a client stand together, by the number of the client. Knows nothing of how jobs are
//! begun, of links or of folders.
#![tactic(auto)]

mod log;
mod report_text;
mod winding;

pub use hmr_hub::ReportLine;
pub use report_text::put_report_line;
pub use winding::wind_up;
