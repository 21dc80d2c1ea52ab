// What the hub replies under the lock.
use crate::report_line::ReportLine;
use events_and_replies::{Event, Reply};
use std::alloc::AllocError;
use update_msgs::HubStop;

/// The reply to a question, by its kind.
#[derive(Drop)]
pub(crate) enum HubReply {
    Told(Result<Reply, HubStop>),
    Outstanding(bool),
    Report(Result<Vec<ReportLine>, AllocError>),
    Events(Result<Vec<Event>, AllocError>),
}
