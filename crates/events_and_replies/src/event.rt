// What the core is told, and what it answers.
ghost use Rattle.std.specs.Prelude.{◌≡◌, IfOk};
ghost use Rattle.std.specs.Option.{option_map};
ghost use Rattle.events_and_replies.specs.Said.{event_of};

use core_model::Refusal;
use hmr_types::{ClientId, EditRefusal, ModName, Table, Ver};
use module_graph::copy_of;
use std::alloc::{AllocError, Global};
use transforms::Transformed;
use update_msgs::ServerMsg;
use version_map::{EditOutcome, Settled};

/// An event of the core.
#[derive(Drop)]
pub enum Event {
    /// A module gets a text, or its source is taken away.
    Edit(ModName, Option<Vec<u8>>),
    /// The result for a version of its module comes.
    Settle(Transformed, Ver),
    /// A client comes, and names the roots of its page; where it names none, they are the server's.
    Connect(Vec<ModName>),
    /// A client asks what there is to do.
    Ask(ClientId),
    /// A client fetches a module for the plan under way.
    Fetch(ClientId, ModName),
    /// A client applied the plan under way, and has these modules now.
    Applied(ClientId, Table),
    /// A client gave the plan under way up.
    Aborted(ClientId),
    /// A module of a client's page invalidated itself, at this version.
    Invalidate(ClientId, ModName, Ver),
    /// A client goes.
    Disconnect(ClientId),
}

/// What the core answers to an event.
#[derive(Drop)]
pub enum Reply {
    /// What an edit brought.
    Edited(EditOutcome),
    /// The edit is refused; nothing has changed.
    EditRefused(EditRefusal),
    /// What a result brought.
    Settled(Settled),
    /// The client is told this.
    To(ServerMsg),
    /// The client's request is refused; nothing has changed.
    Refused(Refusal),
    /// The client is connected no more.
    Gone,
}

impl Event {
    /// An equal event, as the definitions have it.
    pub fn copy(&self, alloc: Global) -> Result<Event, AllocError>
        ensures { IfOk result (λ copy. event_of copy ≡ event_of self.now) }
    {
        match self {
            Event::Edit(name, text) => Ok(Event::Edit(name.clone()?, copy_text(alloc, text)?)),
            Event::Settle(transformed, ver) => Ok(Event::Settle(transformed.copy(alloc)?, *ver)),
            Event::Connect(names) => Ok(Event::Connect(copy_of(alloc, names)?)),
            Event::Ask(client) => Ok(Event::Ask(*client)),
            Event::Fetch(client, name) => Ok(Event::Fetch(*client, name.clone()?)),
            Event::Applied(client, table) => Ok(Event::Applied(*client, table.clone()?)),
            Event::Aborted(client) => Ok(Event::Aborted(*client)),
            Event::Invalidate(client, name, ver) => {
                Ok(Event::Invalidate(*client, name.clone()?, *ver))
            }
            Event::Disconnect(client) => Ok(Event::Disconnect(*client)),
        }
    }
}

/// An equal text, where there is one. It fails only where memory runs out.
pub fn copy_text(alloc: Global, text: &Option<Vec<u8>>) -> Result<Option<Vec<u8>>, AllocError>
    ensures { IfOk result (λ copy. option_map (λ t. t.items) copy ≡ option_map (λ t. t.items) text.now) }
{
    match text {
        Some(text) => Ok(Some(Vec::from_slice(alloc, text)?)),
        None => Ok(None),
    }
}
