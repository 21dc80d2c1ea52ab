// The messages of a server, as they are written in a format.
ghost use Rattle.std.specs.Prelude.{◌≡◌, ◌∷◌, [], codes, Some, IfOk, map};
ghost use Rattle.serde_json.specs.Data.{string};
ghost use Rattle.serde_json.specs.View.{view};
ghost use Rattle.json_readings.specs.Object.{entries};
ghost use Rattle.word_texts.specs.Words.{cause_word};
ghost use Rattle.update_msgs.specs.Writable.{IsFormat, IsWritable};
ghost use Rattle.message_text.specs.Values.{HasReading, alone, list, number_or_null, only_path};
ghost use Rattle.message_text.specs.Values.{or_null, whole};
ghost use Rattle.message_text.specs.ServerText.{in_second, js_update, server_text, tell, text_fault};

use crate::parts::{name_or_null, names_value, number_or_null};
use hmr_types::{ClientId, FaultWord, ModName, ReloadCause, Text, Ver};
use serde_json::{Value, json};
use std::alloc::{AllocError, Global};
use update_msgs::{JsUpdate, ServerMsg};
use word_texts::{cause_str, fault_str};

/// The text of a server's message in a format, 1 or 2, in which it can be written: compact, with its keys in
/// byte order. It reads as the message in that format. It takes time and memory in proportion to the text.
pub fn encode(alloc: Global, msg: &ServerMsg, format: u8) -> Result<Vec<u8>, AllocError>
    requires format { IsFormat format }
    requires ranged { IsWritable format msg.now }
    ensures text { IfOk result (λ v. v.items ≡ server_text format msg.now) }
    ensures reads { IfOk result (λ v. HasReading v.items (tell format msg.now)) }
{
    let value = value_of(alloc, msg, format)?;
    value.to_vec(alloc)
}

fn value_of(alloc: Global, msg: &ServerMsg, format: u8) -> Result<Value, AllocError>
    ensures { IfOk result (λ v. view v ≡ tell format msg.now) }
{
    match msg {
        ServerMsg::Connected { client, roots } => connected_value(alloc, *client, roots.as_slice()),
        ServerMsg::Update {
            replaced,
            updates,
            batch,
            triggered,
        } => update_value(
            alloc,
            format,
            replaced.as_slice(),
            updates.as_slice(),
            *batch,
            triggered.as_slice(),
        ),
        ServerMsg::Prune { paths } => prune_value(alloc, paths.as_slice()),
        ServerMsg::FullReload {
            cause,
            path,
            batch,
            triggered,
        } => reload_value(
            alloc,
            format,
            *cause,
            path.as_slice(),
            *batch,
            triggered.as_slice(),
        ),
        ServerMsg::Error {
            path,
            line,
            column,
            kind,
        } => fault_value(alloc, "error", path, *line, *column, *kind),
        ServerMsg::Broken {
            path,
            line,
            column,
            kind,
        } => fault_value(alloc, "broken", path, *line, *column, *kind),
        ServerMsg::Idle => word_value(alloc, "idle"),
        ServerMsg::Done => word_value(alloc, "done"),
        ServerMsg::Text {
            path,
            version,
            text,
        } => text_value(alloc, path, *version, text),
        ServerMsg::Missing { path } => named_value(alloc, path, "missing"),
        ServerMsg::NotYet { path } => named_value(alloc, path, "not-yet"),
        ServerMsg::Refused {
            code,
            path,
            told,
            kept,
        } => refused_value(alloc, *code, path, told, kept),
    }
}

fn word_value(alloc: Global, word: &str) -> Result<Value, AllocError>
    ensures { IfOk result (λ v. view v ≡ alone word.now) }
{
    json!(in alloc; {"type": word})
}

fn named_value(alloc: Global, path: &ModName, word: &str) -> Result<Value, AllocError>
    ensures { IfOk result (λ v. view v ≡ only_path word.now path.now) }
{
    json!(in alloc; {"path": path.as_str(), "type": word})
}

fn text_value(alloc: Global, path: &ModName, version: Ver, text: &Text) -> Result<Value, AllocError>
    ensures { IfOk result (λ v. view v ≡ entries (
        (codes "path", Some (string path.now)) ∷ (codes "text", Some (string text.now))
        ∷ (codes "type", Some (string (codes "text"))) ∷ (codes "version", Some (whole version)) ∷ [])) }
{
    json!(in alloc; {
        "path": path.as_str(),
        "text": text.as_str(),
        "type": "text",
        "version": version,
    })
}

fn prune_value(alloc: Global, paths: &[ModName]) -> Result<Value, AllocError>
    ensures { IfOk result (λ v. view v ≡ entries (
        (codes "paths", Some (list string paths.now)) ∷ (codes "type", Some (string (codes "prune"))) ∷ [])) }
{
    let paths = names_value(alloc, paths)?;
    json!(in alloc; {"paths": paths, "type": "prune"})
}

fn connected_value(alloc: Global, client: ClientId, roots: &[ModName]) -> Result<Value, AllocError>
    ensures { IfOk result (λ v. view v ≡ entries (
        (codes "client", Some (whole client)) ∷ (codes "roots", Some (list string roots.now))
        ∷ (codes "type", Some (string (codes "connected"))) ∷ [])) }
{
    let roots = names_value(alloc, roots)?;
    connected_object(alloc, u64::from(client), &roots)
}

fn connected_object(alloc: Global, client: u64, roots: &Value) -> Result<Value, AllocError>
    ensures { IfOk result (λ v. view v ≡ entries (
        (codes "client", Some (whole client)) ∷ (codes "roots", Some (view roots.now))
        ∷ (codes "type", Some (string (codes "connected"))) ∷ [])) }
{
    json!(in alloc; {"client": client, "roots": roots, "type": "connected"})
}

fn update_value(
    alloc: Global,
    format: u8,
    replaced: &[ModName],
    updates: &[JsUpdate],
    batch: u64,
    triggered: &[ModName],
) -> Result<Value, AllocError>
    ensures { IfOk result (λ v. view v ≡ entries (
        (codes "batch", in_second format (whole batch)) ∷ (codes "replaced", Some (list string replaced.now))
        ∷ (codes "triggeredBy", in_second format (list string triggered.now))
        ∷ (codes "type", Some (string (codes "update")))
        ∷ (codes "updates", Some (list js_update updates.now)) ∷ [])) }
{
    let replaced = names_value(alloc, replaced)?;
    let updates = updates_value(alloc, updates)?;
    let triggered = names_value(alloc, triggered)?;
    update_object(alloc, format, &replaced, &updates, batch, &triggered)
}

fn update_object(
    alloc: Global,
    format: u8,
    replaced: &Value,
    updates: &Value,
    batch: u64,
    triggered: &Value,
) -> Result<Value, AllocError>
    ensures { IfOk result (λ v. view v ≡ entries (
        (codes "batch", in_second format (whole batch)) ∷ (codes "replaced", Some (view replaced.now))
        ∷ (codes "triggeredBy", in_second format (view triggered.now))
        ∷ (codes "type", Some (string (codes "update")))
        ∷ (codes "updates", Some (view updates.now)) ∷ [])) }
{
    if format == 2 {
        json!(in alloc; {
            "batch": batch,
            "replaced": replaced,
            "triggeredBy": triggered,
            "type": "update",
            "updates": updates,
        })
    } else {
        json!(in alloc; {"replaced": replaced, "type": "update", "updates": updates})
    }
}

fn reload_value(
    alloc: Global,
    format: u8,
    cause: ReloadCause,
    path: &[ModName],
    batch: u64,
    triggered: &[ModName],
) -> Result<Value, AllocError>
    ensures { IfOk result (λ v. view v ≡ entries (
        (codes "batch", in_second format (whole batch)) ∷ (codes "cause", Some (string (cause_word cause)))
        ∷ (codes "path", Some (list string path.now))
        ∷ (codes "triggeredBy", in_second format (list string triggered.now))
        ∷ (codes "type", Some (string (codes "full-reload"))) ∷ [])) }
{
    let path = names_value(alloc, path)?;
    let triggered = names_value(alloc, triggered)?;
    reload_object(alloc, format, cause_str(cause), &path, batch, &triggered)
}

fn reload_object(
    alloc: Global,
    format: u8,
    cause: &str,
    path: &Value,
    batch: u64,
    triggered: &Value,
) -> Result<Value, AllocError>
    ensures { IfOk result (λ v. view v ≡ entries (
        (codes "batch", in_second format (whole batch)) ∷ (codes "cause", Some (string cause.now))
        ∷ (codes "path", Some (view path.now)) ∷ (codes "triggeredBy", in_second format (view triggered.now))
        ∷ (codes "type", Some (string (codes "full-reload"))) ∷ [])) }
{
    if format == 2 {
        json!(in alloc; {
            "batch": batch,
            "cause": cause,
            "path": path,
            "triggeredBy": triggered,
            "type": "full-reload",
        })
    } else {
        json!(in alloc; {"cause": cause, "path": path, "type": "full-reload"})
    }
}

fn fault_value(
    alloc: Global,
    kind_of_message: &str,
    path: &ModName,
    line: u64,
    column: u64,
    kind: FaultWord,
) -> Result<Value, AllocError>
    ensures { IfOk result (λ v. view v ≡ text_fault kind_of_message.now path.now line column kind) }
{
    let word = fault_str(kind);
    json!(in alloc; {
        "column": column,
        "kind": word,
        "line": line,
        "path": path.as_str(),
        "type": kind_of_message,
    })
}

fn refused_value(
    alloc: Global,
    code: u8,
    path: &Option<ModName>,
    told: &Option<u64>,
    kept: &Option<u64>,
) -> Result<Value, AllocError>
    ensures { IfOk result (λ v. view v ≡ entries (
        (codes "code", Some (whole code)) ∷ (codes "kept", Some (number_or_null kept.now))
        ∷ (codes "path", Some (or_null path.now)) ∷ (codes "told", Some (number_or_null told.now))
        ∷ (codes "type", Some (string (codes "refused"))) ∷ [])) }
{
    let path = name_or_null(alloc, path)?;
    let told = number_or_null(alloc, told)?;
    let kept = number_or_null(alloc, kept)?;
    refused_object(alloc, u64::from(code), &path, &told, &kept)
}

fn refused_object(
    alloc: Global,
    code: u64,
    path: &Value,
    told: &Value,
    kept: &Value,
) -> Result<Value, AllocError>
    ensures { IfOk result (λ v. view v ≡ entries (
        (codes "code", Some (whole code)) ∷ (codes "kept", Some (view kept.now))
        ∷ (codes "path", Some (view path.now)) ∷ (codes "told", Some (view told.now))
        ∷ (codes "type", Some (string (codes "refused"))) ∷ [])) }
{
    json!(in alloc; {"code": code, "kept": kept, "path": path, "told": told, "type": "refused"})
}

fn js_update_value(alloc: Global, update: &JsUpdate) -> Result<Value, AllocError>
    ensures { IfOk result (λ v. view v ≡ js_update update.now) }
{
    json!(in alloc; {
        "acceptedPath": update.accepted_path.as_str(),
        "path": update.path.as_str(),
        "timestamp": update.timestamp,
        "type": "js-update",
    })
}

fn updates_value(alloc: Global, updates: &[JsUpdate]) -> Result<Value, AllocError>
    ensures { IfOk result (λ v. view v ≡ list js_update updates.now) }
{
    let mut items = Vec::new(alloc);
    for update in updates.iter() {
        items.push(js_update_value(alloc, update)?)?;
    }
    Ok(Value::Array(items))
}
