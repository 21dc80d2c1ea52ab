// One output line as its exact bytes: the form of its kind, and LF.
ghost use Rattle.std.specs.Prelude.{◌≡◌, ◌++◌, IfOk, OnOk};
ghost use Rattle.play_text.specs.Lines.{line_text, body_text};

use crate::line_forms::{
    put_aborted_line, put_accept_line, put_batch_line, put_client_line, put_counted, put_edit_line,
    put_error_line, put_event_line, put_fault_line, put_handler_line, put_instance_line,
    put_module, put_nohost_line, put_of_message, put_of_names, put_of_text, put_pair,
    put_reload_line, put_remove_line, put_settle_line, put_triple, put_value_line, put_worded,
};
use crate::pieces::{put, put_of};
use output_lines::OutLine;
use std::alloc::{AllocError, Global};
use word_texts::{ending_str, plan_str};

/// The bytes of a line, with its LF. The time is linear in them.
///
/// Names stand in the order in which the line has them: whoever makes a line sorts them. In a
/// message, a console line, a thrown text and a host's label, `\` is written `\\`, LF `\n` and CR
/// `\r`, so that a line stays one line.
pub fn render(alloc: Global, line: &OutLine) -> Result<Vec<u8>, AllocError>
    ensures { IfOk result (λ bytes. bytes.items ≡ line_text line.now) }
{
    let mut out = Vec::new(alloc);
    put_line(&mut out, line)?;
    Ok(out)
}

/// Puts the bytes of a line, with its LF, behind others. Where memory runs out, a part of them may stand
/// there.
pub fn put_line(out: &mut Vec<u8>, line: &OutLine) -> Result<(), AllocError>
    ensures { OnOk result (out.new.items ≡ out.old.items ++ line_text line.now) }
{
    put_body(out, line)?;
    put(out, "\n")
}

fn put_body(out: &mut Vec<u8>, line: &OutLine) -> Result<(), AllocError>
    ensures { OnOk result (out.new.items ≡ out.old.items ++ body_text line.now) }
{
    match line {
        OutLine::Edit { name, outcome } => put_edit_line(out, name, outcome),
        OutLine::Remove { name, outcome } => put_remove_line(out, name, outcome),
        OutLine::Settle {
            name,
            version,
            outcome,
        } => put_settle_line(out, name, *version, outcome),
        OutLine::Open { client } => put_counted(out, "open ", *client),
        OutLine::OpenRefused => put(out, "open refused"),
        OutLine::OpenBadRoots => put(out, "open bad-roots"),
        OutLine::Close { client } => put_counted(out, "close ", *client),
        OutLine::Unknown { client } => put_counted(out, "unknown ", *client),
        OutLine::Applied { client, plan } => put_of_text(out, *client, " ", plan_str(*plan)),
        OutLine::Reload {
            client,
            cause,
            path,
        } => put_reload_line(out, *client, *cause, path.as_slice()),
        OutLine::Batch {
            client,
            batch,
            triggered,
        } => put_batch_line(out, *client, *batch, triggered.as_slice()),
        OutLine::Update { client, replaced } => put_of_names(
            out,
            *client,
            " update",
            replaced.as_slice(),
        ),
        OutLine::Accept {
            client,
            boundary,
            via,
        } => put_accept_line(out, *client, boundary, via),
        OutLine::Aborted { client, outcome } => put_aborted_line(out, *client, outcome),
        OutLine::Pruned { client, name } => put_of_text(out, *client, " pruned ", name.as_str()),
        OutLine::Error {
            client,
            name,
            line,
            column,
            word,
        } => put_error_line(out, *client, name, *line, *column, *word),
        OutLine::Wait { client, name } => put_of_text(out, *client, " wait ", name.as_str()),
        OutLine::Log { client, name, text } => put_of_message(out, *client, " log ", name, text),
        OutLine::Fault {
            client,
            name,
            place,
            fault,
        } => put_fault_line(out, *client, name, *place, fault),
        OutLine::Unrun { client, name } => put_of_text(out, *client, " unrun ", name.as_str()),
        OutLine::NoHost {
            client,
            name,
            label,
        } => put_nohost_line(out, *client, name, label),
        OutLine::Invalidated {
            client,
            name,
            message,
        } => put_of_message(out, *client, " invalidated ", name, message),
        OutLine::Ignored { client, name } => put_of_text(out, *client, " ignored ", name.as_str()),
        OutLine::Full { client, event } => put_event_line(out, *client, " full ", event),
        OutLine::Quiet { client } => put_of(out, *client, " quiet"),
        OutLine::Busy { client } => put_of(out, *client, " busy"),
        OutLine::Event { client, event } => put_event_line(out, *client, " event ", event),
        OutLine::Ended { client, word } => put_of_text(out, *client, " ended ", ending_str(*word)),
        OutLine::Client { client, state } => put_client_line(out, *client, *state),
        OutLine::Module { name, version } => put_module(out, name, *version),
        OutLine::Stale {
            importer,
            dependency,
        } => put_pair(out, "stale ", importer.as_str(), dependency.as_str()),
        OutLine::Values { client } => put_counted(out, "values ", *client),
        OutLine::Value {
            name,
            export,
            value,
        } => put_value_line(out, name, export, value),
        OutLine::Fates { client } => put_counted(out, "fates ", *client),
        OutLine::Instance {
            number,
            name,
            version,
            status,
            fate,
        } => put_instance_line(out, *number, name, *version, *status, fate),
        OutLine::Handler { kind, handled, end } => put_handler_line(out, *kind, handled, *end),
        OutLine::Fresh => put(out, "fresh"),
        OutLine::FreshOf { client } => put_counted(out, "fresh ", *client),
        OutLine::Missing { name } => put_worded(out, "missing ", name.as_str()),
        OutLine::Unlinked {
            importer,
            dependency,
            export,
        } => put_triple(
            out,
            "unlinked ",
            importer.as_str(),
            dependency.as_str(),
            export.as_str(),
        ),
    }
}
