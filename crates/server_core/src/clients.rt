// The connected clients in the order of their numbers, of which there are at most 32, and what each is
// told of a change of the sources.
ghost use Rattle.std.specs.Prelude.{◌≡◌, ◌<◌, ◌≤◌, ℕ, All, IfNone, IfOk, IfSome, List, None};
ghost use Rattle.std.specs.Prelude.{OnOk, Some, get_or, is_some, length, slice_set};
ghost use Rattle.std.specs.Option.{option_copied};
ghost use Rattle.core_model.specs.Client.{Client, with_notice, without_notice};
ghost use Rattle.core_model.specs.Core.{client_at, each_client, with_client, without_client};
ghost use Rattle.core_model.specs.Sources.{Sources};
ghost use Rattle.client_records.specs.Record as client;
ghost use Rattle.client_records.specs.Record.{SameBut};
ghost use Rattle.server_core.specs.Clients.{AreClients, HasRoom, numbers_of};

use client_records::ClientRecord;
use hmr_types::{ClientId, ModName, TextFault};
use std::alloc::{AllocError, Global};
use version_map::VersionMap;

/// A connected client under its number.
pub(crate) type Row = (ClientId, ClientRecord);

/// Where the record of a client stands, if it is connected.
pub(crate) fn place_of(clients: &[Row], number: ClientId) -> Option<usize>
    ensures none { IfNone result (client_at clients.now number ≡ None) }
    ensures known { is_some result ≡ is_some (client_at clients.now number) }
    ensures within { IfSome result (λ place. place < length clients.now) }
    ensures there { IfSome result
        (λ place. (d : ℕ × client.Kept)
        → client_at clients.now number ≡ Some (get_or clients.now place d).1) }
    ensures number { IfSome result
        (λ place. (d : ℕ × client.Kept) → (get_or clients.now place d).0 ≡ number) }
    ensures with { IfSome result
        (λ place. (k : client.Kept)
        → with_client number k clients.now ≡ slice_set clients.now place (number, k)) }
{
    for place in 0..clients.len() {
        if clients[place].0 == number {
            return Some(place);
        }
    }
    None
}

/// The record of a client, if it is connected.
pub(crate) fn record_of(clients: &[Row], number: ClientId) -> Option<&ClientRecord>
    ensures { option_copied result ≡ client_at clients.now number }
{
    let Some(place) = place_of(clients, number) else {
        return None;
    };
    Some(&clients[place].1)
}

/// Takes the record of a client out.
pub(crate) fn take_out(clients: &mut Vec<Row>, number: ClientId)
    ensures { clients.new.items ≡ without_client number clients.old.items }
{
    clients.retain(|row| row.0 != number);
}

/// Each client is told that the module has just been served anew or removed; `sources` is as it is
/// after that.
pub(crate) fn tell_changed(clients: &mut [Row], sources: &VersionMap, name: &ModName)
    ensures stands { (s : Sources) (rows : List (ℕ × Client)) → AreClients s rows clients.old
        → SameBut name.now s sources.now
        → AreClients sources.now (each_client (without_notice name.now) rows) clients.new }
    ensures numbers { numbers_of clients.new ≡ numbers_of clients.old }
{
    for row in clients.iter_mut() {
        row.1.source_changed(sources, name);
    }
}

/// Makes room for a notice with each client, so that the next one isn't refused. It changes nothing else.
pub(crate) fn make_room(clients: &mut [Row]) -> Result<(), AllocError>
    ensures room { OnOk result (All HasRoom clients.new) }
    ensures stands { (s : Sources) (rows : List (ℕ × Client)) → AreClients s rows clients.old
        → AreClients s rows clients.new }
    ensures numbers { numbers_of clients.new ≡ numbers_of clients.old }
{
    for row in clients.iter_mut() {
        row.1.room_for_notice()?;
    }
    Ok(())
}

/// As many copies of a name as there are clients.
pub(crate) fn copies_for(
    alloc: Global,
    clients: &[Row],
    name: &ModName,
) -> Result<Vec<ModName>, AllocError>
    ensures copies { IfOk result (λ copies. All (λ m. m ≡ name.now) copies.items) }
    ensures many { IfOk result (λ copies. length copies.items ≡ length clients.now) }
{
    let mut copies = Vec::new(alloc);
    for row in clients {
        copies.push(name.clone()?)?;
    }
    Ok(copies)
}

/// Each client is to be told of this fault of a module, in place of an earlier one.
pub(crate) fn give_notices(
    clients: &mut [Row],
    mut copies: Vec<ModName>,
    fault: TextFault,
    name: &ModName,
)
    requires room { All HasRoom clients.old }
    requires copies { All (λ m. m ≡ name.now) copies.items }
    requires many { length copies.items ≡ length clients.old }
    ensures stands { (s : Sources) (rows : List (ℕ × Client)) → AreClients s rows clients.old
        → AreClients s (each_client (with_notice name.now fault) rows) clients.new }
    ensures numbers { numbers_of clients.new ≡ numbers_of clients.old }
{
    for row in clients.iter_mut() {
        if let Some(copy) = copies.pop() {
            row.1.notice(copy, fault);
        }
    }
}
