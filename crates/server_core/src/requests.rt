// The requests of connected clients: each is heard on the client's own record.
ghost use Rattle.std.specs.Prelude.{◌≡◌, All, Ok};
ghost use Rattle.hmr_types.specs.declared.limits.TheConstants.{LARGEST_CLIENT};
ghost use Rattle.core_model.specs.Requests as requests;
ghost use Rattle.client_records.specs.Answers.{reply_of};
ghost use Rattle.server_core.specs.Clients.{IsGiven, numbers_of};
ghost use Rattle.server_core.specs.Heard.{IsHeard};
ghost use Rattle.events_and_replies.specs.Said.{said};

use crate::clients::{Row, place_of};
use client_records::Answer;
use core_model::Refusal;
use events_and_replies::Reply;
use hmr_types::{ClientId, ModName, Table, Ver};
use std::alloc::{AllocError, Global};
use version_map::VersionMap;

/// A client asks what there is to do.
pub(crate) fn ask(
    alloc: Global,
    clients: &mut [Row],
    sources: &VersionMap,
    number: ClientId,
) -> Result<Reply, AllocError>
    requires { All (IsGiven LARGEST_CLIENT) (numbers_of clients.old) }
    ensures { IsHeard sources.now number requests.ask clients.old clients.new result }
{
    let Some(place) = place_of(clients, number) else {
        return Ok(Reply::Refused(Refusal::UnknownClient));
    };
    let answer = clients[place].1.ask(alloc, number, sources)?;
    Ok(told(answer))
}

/// A client fetches a module.
pub(crate) fn fetch(
    alloc: Global,
    clients: &mut [Row],
    sources: &VersionMap,
    number: ClientId,
    name: ModName,
) -> Result<Reply, AllocError>
    ensures { IsHeard sources.now number (requests.fetch name) clients.old clients.new result }
{
    let Some(place) = place_of(clients, number) else {
        return Ok(Reply::Refused(Refusal::UnknownClient));
    };
    let answer = clients[place].1.fetch(alloc, sources, name)?;
    Ok(told(answer))
}

/// A client applied the plan under way.
pub(crate) fn applied(
    alloc: Global,
    clients: &mut [Row],
    sources: &VersionMap,
    number: ClientId,
    table: &Table,
) -> Result<Reply, AllocError>
    ensures { IsHeard sources.now number (requests.applied_as table.now) clients.old clients.new result }
{
    let Some(place) = place_of(clients, number) else {
        return Ok(Reply::Refused(Refusal::UnknownClient));
    };
    let answer = clients[place].1.applied(alloc, sources, table)?;
    Ok(told(answer))
}

/// A client gave the plan under way up.
pub(crate) fn aborted(clients: &mut [Row], sources: &VersionMap, number: ClientId) -> Reply
    ensures { IsHeard sources.now number requests.aborted clients.old clients.new (Ok result) }
{
    let Some(place) = place_of(clients, number) else {
        return Reply::Refused(Refusal::UnknownClient);
    };
    told(clients[place].1.aborted(sources))
}

/// A module of a client's page invalidated itself.
pub(crate) fn invalidate(
    clients: &mut [Row],
    sources: &VersionMap,
    number: ClientId,
    name: ModName,
    version: Ver,
) -> Result<Reply, AllocError>
    ensures { IsHeard sources.now number (requests.invalidate name version) clients.old clients.new result }
{
    let Some(place) = place_of(clients, number) else {
        return Ok(Reply::Refused(Refusal::UnknownClient));
    };
    let answer = clients[place].1.invalidate(name, version)?;
    Ok(told(answer))
}

// An answer, as a reply of the core.
fn told(answer: Answer) -> Reply
    ensures { result ≡ said (reply_of answer) }
{
    match answer {
        Answer::To(message) => Reply::To(message),
        Answer::Refused(refusal) => Reply::Refused(refusal),
    }
}
