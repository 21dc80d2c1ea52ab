// What the types of a message's parts keep, told of its bytes: names are names, and a table is a table. A
// contract sees a name as its bytes alone; a call of the name tells that they are one.
ghost use Rattle.std.specs.List.{list_all};
ghost use Rattle.std.specs.Prelude.{◌≡◌, true};
ghost use Rattle.hmr_types.specs.ModName.{is_name};
ghost use Rattle.hmr_types.specs.Table.{is_table};
ghost use Rattle.message_json.specs.ClientReading as client;
ghost use Rattle.message_json.specs.Reading.{HasName};
ghost use Rattle.message_json.specs.ServerReading as server;
ghost use Rattle.message_json.specs.ServerReading.{AreNames, is_named};

use hmr_types::{ModName, Table};
use update_msgs::{ClientMsg, JsUpdate, ServerMsg};

/// The names of a client's message are names, and its table is one. It takes time in proportion to them.
pub(crate) fn note_client_msg(msg: &ClientMsg)
    ensures { client.IsTyped msg.now }
{
    match msg {
        ClientMsg::Hello { format: _, roots } => note_names(roots.as_slice()),
        ClientMsg::Ask | ClientMsg::Bye => (),
        ClientMsg::Fetch { path } => note_name(path),
        ClientMsg::Applied { table } => note_table(table),
        ClientMsg::Aborted {
            cause: _,
            path,
            from,
            name: _,
        } => {
            note_name(path);
            note_name_if_any(from);
        }
        ClientMsg::Invalidate {
            path,
            version: _,
            message: _,
        } => note_name(path),
    }
}

/// The names of a server's message are names. It takes time in proportion to them.
pub(crate) fn note_server_msg(msg: &ServerMsg)
    ensures { server.IsTyped msg.now }
{
    match msg {
        ServerMsg::Connected { client: _, roots } => note_names(roots.as_slice()),
        ServerMsg::Update {
            replaced,
            updates,
            batch: _,
            triggered,
        } => {
            note_names(replaced.as_slice());
            note_updates(updates.as_slice());
            note_names(triggered.as_slice());
        }
        ServerMsg::Prune { paths } => note_names(paths.as_slice()),
        ServerMsg::FullReload {
            cause: _,
            path,
            batch: _,
            triggered,
        } => {
            note_names(path.as_slice());
            note_names(triggered.as_slice());
        }
        ServerMsg::Error {
            path,
            line: _,
            column: _,
            kind: _,
        } => note_name(path),
        ServerMsg::Broken {
            path,
            line: _,
            column: _,
            kind: _,
        } => note_name(path),
        ServerMsg::Idle | ServerMsg::Done => (),
        ServerMsg::Text {
            path,
            version: _,
            text: _,
        } => note_name(path),
        ServerMsg::Missing { path } => note_name(path),
        ServerMsg::NotYet { path } => note_name(path),
        ServerMsg::Refused {
            code: _,
            path,
            told: _,
            kept: _,
        } => note_name_if_any(path),
    }
}

fn note_name(name: &ModName)
    ensures { is_name name.now ≡ true }
{
    let _name = name.as_str();
}

fn note_name_if_any(name: &Option<ModName>)
    ensures { HasName name.now }
{
    if let Some(name) = name {
        note_name(name);
    }
}

fn note_names(names: &[ModName])
    ensures { AreNames names.now }
{
    for name in names.iter() {
        note_name(name);
    }
}

fn note_updates(updates: &[JsUpdate])
    ensures { list_all is_named updates.now ≡ true }
{
    for update in updates.iter() {
        note_name(&update.path);
        note_name(&update.accepted_path);
    }
}

fn note_table(table: &Table)
    ensures names { list_all (λ row. is_name row.0) table.now ≡ true }
    ensures table { is_table table.now ≡ true }
{
    for row in table.as_slice().iter() {
        note_name(&row.0);
    }
}
