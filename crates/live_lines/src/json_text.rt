// A piece of news as one JSON object on a line.
ghost use Rattle.std.specs.Prelude.{◌≡◌, ◌++◌, IfOk, OnOk};
ghost use Rattle.live_lines.specs.Objects.{abort_word, aborted_fields, anew_word, bool_word, cause_fields};
ghost use Rattle.live_lines.specs.Objects.{fault_fields, fields_text, foreign_word, hot_fields, object_text};
ghost use Rattle.live_lines.specs.Objects.{edit_fields, kind_fields, misfit_fields, of_module, of_page, page_fields, passed_word};
ghost use Rattle.live_lines.specs.Objects.{opened_fields, place_fields, pruned_fields, reload_fields, stale_fields};

use crate::json_pieces::{
    put_names_field, put_null_name_field, put_null_text_field, put_number_field, put_pairs_field,
    put_rows_field, put_stale_field, put_text_field,
};
use crate::pieces::{put, put_clock};
use crate::{AnewCause, Clock, Foreign, News, PageNews, PassedCause, StaleBinding};
use hmr_types::{ClientId, ModName, Text, TextFault, Ver};
use std::alloc::{AllocError, Global};
use update_msgs::AbortCause;
use word_texts::{cause_str, fault_str};

/// The bytes of a piece of news as one JSON object, with its time and the word of its event, and an LF behind
/// it. It takes time linear in the bytes.
pub fn json_of(alloc: Global, clock: Clock, news: &News) -> Result<Vec<u8>, AllocError>
    ensures { IfOk result (λ bytes. bytes.items ≡ object_text clock news.now) }
{
    let mut out = Vec::new(alloc);
    put(&mut out, "{\"time\":\"")?;
    put_clock(&mut out, clock)?;
    put(&mut out, "\",\"event\":")?;
    put_fields(&mut out, news)?;
    put(&mut out, "}\n")?;
    Ok(out)
}

// Puts the event, and what there is to it.
fn put_fields(out: &mut Vec<u8>, news: &News) -> Result<(), AllocError>
    ensures { OnOk result (out.new.items ≡ out.old.items ++ fields_text news.now) }
{
    match news {
        News::Saved { name, version } => put_edit(out, "\"saved\"", name, *version),
        News::Removed { name, version } => put_edit(out, "\"removed\"", name, *version),
        News::Fault {
            name,
            fault,
            line_text,
        } => put_fault(out, name, fault, line_text),
        News::Passed { path, cause } => {
            put(out, "\"passed\"")?;
            put_text_field(out, "path", path.as_str())?;
            put_text_field(out, "why", passed_str(*cause))
        }
        News::Page { client, news } => put_page(out, *client, news),
        News::Stale { client, bindings } => put_stale(out, *client, bindings.as_slice()),
        News::Stranger { foreign, told } => {
            put(out, "\"stranger\"")?;
            put_text_field(out, "what", foreign_str(*foreign))?;
            put_text_field(out, "told", told.as_str())
        }
        News::Anew { cause } => {
            put(out, "\"anew\"")?;
            put_text_field(out, "why", anew_str(*cause))
        }
        News::Away { away } => {
            put(out, "\"away\",\"away\":")?;
            put(out, bool_str(*away))
        }
    }
}

fn put_edit(out: &mut Vec<u8>, event: &str, name: &ModName, version: Ver) -> Result<(), AllocError>
    ensures { OnOk result (out.new.items ≡ out.old.items ++ edit_fields event.now name.now version) }
{
    put(out, event)?;
    put_text_field(out, "module", name.as_str())?;
    put_number_field(out, "version", version)
}

fn put_fault(
    out: &mut Vec<u8>,
    name: &ModName,
    fault: &TextFault,
    line: &Text,
) -> Result<(), AllocError>
    ensures { OnOk result (out.new.items ≡ out.old.items ++ fault_fields name.now fault.now line.now) }
{
    put_of_module(out, "\"fault\"", name)?;
    put_place(out, fault.line, fault.col)?;
    put_kind(out, fault_str(fault.word), line.as_str())
}

fn put_of_module(out: &mut Vec<u8>, event: &str, name: &ModName) -> Result<(), AllocError>
    ensures { OnOk result (out.new.items ≡ out.old.items ++ of_module event.now name.now) }
{
    put(out, event)?;
    put_text_field(out, "module", name.as_str())
}

fn put_place(out: &mut Vec<u8>, line: u32, column: u32) -> Result<(), AllocError>
    ensures { OnOk result (out.new.items ≡ out.old.items ++ place_fields line column) }
{
    put_number_field(out, "line", u64::from(line))?;
    put_number_field(out, "column", u64::from(column))
}

fn put_kind(out: &mut Vec<u8>, word: &str, line: &str) -> Result<(), AllocError>
    ensures { OnOk result (out.new.items ≡ out.old.items ++ kind_fields word.now line.now) }
{
    put_text_field(out, "kind", word)?;
    put_text_field(out, "text", line)
}

fn put_of_page(out: &mut Vec<u8>, event: &str, client: ClientId) -> Result<(), AllocError>
    ensures { OnOk result (out.new.items ≡ out.old.items ++ of_page event.now client) }
{
    put(out, event)?;
    put_number_field(out, "page", u64::from(client))
}

fn put_page(out: &mut Vec<u8>, client: ClientId, news: &PageNews) -> Result<(), AllocError>
    ensures { OnOk result (out.new.items ≡ out.old.items ++ page_fields client news.now) }
{
    match news {
        PageNews::Opened { roots } => put_opened(out, client, roots.as_slice()),
        PageNews::Refused { code } => {
            put(out, "\"refused\"")?;
            put_number_field(out, "code", u64::from(*code))
        }
        PageNews::Loaded { modules } => {
            put_of_page(out, "\"loaded\"", client)?;
            put_number_field(out, "modules", *modules)
        }
        PageNews::Reload { cause, path } => put_reload(
            out,
            client,
            cause_str(*cause),
            path.as_slice(),
        ),
        PageNews::Hot {
            changed,
            accepted,
            stale,
        } => put_hot(
            out,
            client,
            changed.as_slice(),
            accepted.as_slice(),
            stale.as_slice(),
        ),
        PageNews::Aborted {
            cause,
            path,
            from,
            name,
        } => put_aborted(out, client, *cause, path, from, name),
        PageNews::Pruned { names } => put_pruned(out, client, names.as_slice()),
        PageNews::Closed => put_of_page(out, "\"closed\"", client),
    }
}

fn put_opened(out: &mut Vec<u8>, client: ClientId, roots: &[ModName]) -> Result<(), AllocError>
    ensures { OnOk result (out.new.items ≡ out.old.items ++ opened_fields client roots.now) }
{
    put_of_page(out, "\"opened\"", client)?;
    put_names_field(out, "roots", roots)
}

fn put_reload(
    out: &mut Vec<u8>,
    client: ClientId,
    word: &str,
    path: &[ModName],
) -> Result<(), AllocError>
    ensures { OnOk result (out.new.items ≡ out.old.items ++ reload_fields client word.now path.now) }
{
    put_of_page(out, "\"reload\"", client)?;
    put_text_field(out, "cause", word)?;
    put_names_field(out, "path", path)
}

fn put_pruned(out: &mut Vec<u8>, client: ClientId, names: &[ModName]) -> Result<(), AllocError>
    ensures { OnOk result (out.new.items ≡ out.old.items ++ pruned_fields client names.now) }
{
    put_of_page(out, "\"pruned\"", client)?;
    put_names_field(out, "modules", names)
}

fn put_stale(
    out: &mut Vec<u8>,
    client: ClientId,
    bindings: &[StaleBinding],
) -> Result<(), AllocError>
    ensures { OnOk result (out.new.items ≡ out.old.items ++ stale_fields client bindings.now) }
{
    put_of_page(out, "\"stale\"", client)?;
    put_stale_field(out, "stale", bindings)
}

fn put_hot(
    out: &mut Vec<u8>,
    client: ClientId,
    changed: &[(ModName, Ver)],
    accepted: &[(ModName, ModName)],
    stale: &[StaleBinding],
) -> Result<(), AllocError>
    ensures { OnOk result
        (out.new.items ≡ out.old.items ++ hot_fields client changed.now accepted.now stale.now) }
{
    put_of_page(out, "\"hot\"", client)?;
    put_rows_field(out, "changed", changed)?;
    put_pairs_field(out, "accepted", accepted)?;
    put_stale_field(out, "stale", stale)
}

fn put_aborted(
    out: &mut Vec<u8>,
    client: ClientId,
    cause: AbortCause,
    path: &ModName,
    from: &Option<ModName>,
    name: &Option<Text>,
) -> Result<(), AllocError>
    ensures { OnOk result
        (out.new.items ≡ out.old.items ++ aborted_fields client cause path.now from.now name.now) }
{
    put_of_page(out, "\"aborted\"", client)?;
    put_cause(out, abort_str(cause), path)?;
    put_misfit(out, from, name)
}

fn put_cause(out: &mut Vec<u8>, word: &str, path: &ModName) -> Result<(), AllocError>
    ensures { OnOk result (out.new.items ≡ out.old.items ++ cause_fields word.now path.now) }
{
    put_text_field(out, "cause", word)?;
    put_text_field(out, "path", path.as_str())
}

fn put_misfit(
    out: &mut Vec<u8>,
    from: &Option<ModName>,
    name: &Option<Text>,
) -> Result<(), AllocError>
    ensures { OnOk result (out.new.items ≡ out.old.items ++ misfit_fields from.now name.now) }
{
    put_null_name_field(out, "from", from)?;
    put_null_text_field(out, "name", name)
}

fn abort_str(cause: AbortCause) -> &'static str
    ensures { result.now ≡ abort_word cause }
{
    match cause {
        AbortCause::Missing => "missing",
        AbortCause::Broken => "broken",
        AbortCause::Link => "link",
    }
}

fn passed_str(cause: PassedCause) -> &'static str
    ensures { result.now ≡ passed_word cause }
{
    match cause {
        PassedCause::FileTooLong => "file-too-long",
        PassedCause::TextTooLong => "text-too-long",
        PassedCause::BadName => "bad-name",
        PassedCause::TooManyNames => "too-many-names",
        PassedCause::SourceTotal => "source-total",
        PassedCause::Unreadable => "unreadable",
        PassedCause::Outside => "outside",
    }
}

fn foreign_str(foreign: Foreign) -> &'static str
    ensures { result.now ≡ foreign_word foreign }
{
    match foreign {
        Foreign::Host => "host",
        Foreign::Origin => "origin",
    }
}

fn anew_str(cause: AnewCause) -> &'static str
    ensures { result.now ≡ anew_word cause }
{
    match cause {
        AnewCause::TranscriptFull => "transcript-full",
        AnewCause::NumbersSpent => "numbers-spent",
    }
}

fn bool_str(holds: bool) -> &'static str
    ensures { result.now ≡ bool_word holds }
{
    if holds { "true" } else { "false" }
}
