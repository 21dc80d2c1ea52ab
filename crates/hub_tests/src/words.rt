// Replies and the lines of a report as words, so that a test compares all of them at once.
use core_model::Refusal;
use events_and_replies::Reply;
use hmr_hub::ReportLine;
use output_lines::OutLine;
use std::alloc::{AllocError, Global};
use update_msgs::ServerMsg;
use version_map::{EditOutcome, Settled};

/// The replies as words, with `, ` between; a reply that the tests know nothing of is `?`.
pub(crate) fn all_said(alloc: Global, replies: &[Reply]) -> Result<String, AllocError> {
    let mut all = String::new(alloc);
    for reply in replies {
        add(&mut all, &said(alloc, reply)?)?;
    }
    Ok(all)
}

/// The lines as words, with `, ` between; a line that the tests know nothing of is `?`.
pub(crate) fn lines_said(alloc: Global, lines: &[ReportLine]) -> Result<String, AllocError> {
    let mut all = String::new(alloc);
    for line in lines {
        add(&mut all, &line_said(alloc, line)?)?;
    }
    Ok(all)
}

fn add(all: &mut String, more: &str) -> Result<(), AllocError> {
    if !all.is_empty() {
        all.push_str(", ")?;
    }
    all.push_str(more)
}

fn said(alloc: Global, reply: &Reply) -> Result<String, AllocError> {
    match reply {
        Reply::Edited(EditOutcome::Job(version)) => format!(in alloc; "job {version}"),
        Reply::Settled(Settled::Served) => String::from_str(alloc, "served"),
        Reply::To(message) => message_said(alloc, message),
        Reply::Refused(Refusal::Ignored) => String::from_str(alloc, "ignored"),
        Reply::Refused(Refusal::OutOfTurn) => String::from_str(alloc, "out of turn"),
        Reply::Gone => String::from_str(alloc, "gone"),
        _ => String::from_str(alloc, "?"),
    }
}

fn message_said(alloc: Global, message: &ServerMsg) -> Result<String, AllocError> {
    match message {
        ServerMsg::Connected { client, roots: _ } => format!(in alloc; "client {client}"),
        ServerMsg::Text {
            path,
            version,
            text: _,
        } => format!(in alloc; "{} {version}", path.as_str()),
        ServerMsg::Done => String::from_str(alloc, "done"),
        ServerMsg::Idle => String::from_str(alloc, "idle"),
        _ => String::from_str(alloc, "?"),
    }
}

fn line_said(alloc: Global, line: &ReportLine) -> Result<String, AllocError> {
    match line {
        ReportLine::Steps(count) => format!(in alloc; "steps {count}"),
        ReportLine::Line(OutLine::Fresh) => String::from_str(alloc, "fresh"),
        ReportLine::Line(OutLine::Module { name, version }) => {
            format!(in alloc; "{} {version}", name.as_str())
        }
        ReportLine::Line(OutLine::Missing { name }) => format!(in alloc;
            "missing {}",
            name.as_str()
        ),
        ReportLine::Client(client) => format!(in alloc; "client {client}"),
        ReportLine::Line(_) => String::from_str(alloc, "?"),
    }
}
