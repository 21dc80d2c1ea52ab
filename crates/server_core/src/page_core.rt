// The core and its step.
ghost use Rattle.std.specs.Prelude.{◌≡◌, ◌↔◌, ◌<◌, ◌≤◌, [], ◌∷◌};
ghost use Rattle.std.specs.Prelude.{ℕ, List, IfOk, IsErrOf, IsOk, OnErr, OnOk, Some, false, length, true};
ghost use Rattle.hmr_types.specs.declared.limits.TheConstants.{ROOTS};
ghost use Rattle.core_model.specs.Core as model;
ghost use Rattle.core_model.specs.Roots.{are_distinct};
ghost use Rattle.core_model.specs.Client.{Client};
ghost use Rattle.core_model.specs.Names.{Name};
ghost use Rattle.core_model.specs.Requests.{ask};
ghost use Rattle.core_model.specs.Sent.{IsReloadSent};
ghost use Rattle.client_records.specs.Record as client;
ghost use Rattle.server_core.specs.Kept.{StandsFor, is_free, leaves};
ghost use Rattle.events_and_replies.specs.Said.{IsWritten, event_of, reload_path, said};
ghost use Rattle.server_core.specs.declared.new_fault.NewFault.TheVariants.{DuplicateRoot, NoRoots};
ghost use Rattle.server_core.specs.declared.new_fault.NewFault.TheVariants.{TooManyRoots};

use crate::clients::Row;
use crate::connect::are_distinct;
use crate::new_fault::NewFault;
use crate::requests::{aborted, applied, ask, fetch, invalidate};
use events_and_replies::{Event, Reply};
use hmr_types::limits::ROOTS;
use hmr_types::{ClientId, ModName, Sequence};
use std::alloc::{AllocError, Global};
use std::marker::Model;
use version_map::VersionMap;

/// The core of a server. Contracts see the roots of its page, its sources, the connected clients by
/// number and the last number given; that these are what the events so far give is the relation
/// `StandsFor`.
#[derive(Drop)]
pub struct Core {
    pub(crate) roots: Sequence<ModName>,
    pub(crate) versions: VersionMap,
    pub(crate) clients: Vec<Row>,
    pub(crate) given: ClientId,
}

impl Model for Core {
    ghost use Rattle.server_core.specs.Inside.{IsSoundInside, kept_of};
    ghost use Rattle.server_core.specs.Kept.{Kept};

    ghost Value = { Kept };

    ghost view = { kept_of };

    ghost invariant = { IsSoundInside };
}

impl Core {
    /// The core of a page with these roots, before any event. [`NewFault::NoRoots`] comes exactly
    /// where there are none, [`NewFault::TooManyRoots`] where there are more than 16, and
    /// [`NewFault::DuplicateRoot`] where there are fewer and two are equal.
    pub fn new(alloc: Global, roots: Vec<ModName>) -> Result<Core, NewFault>
        ensures roots { IfOk result (λ core. core.roots ≡ roots.items) }
        ensures stands { IfOk result (StandsFor []) }
        ensures none { IsErrOf result NoRoots ↔ (roots.items ≡ []) }
        ensures many { IsErrOf result TooManyRoots ↔ (ROOTS < length roots.items) }
        ensures twice { IsErrOf result DuplicateRoot
            ↔ (length roots.items ≤ ROOTS) × (are_distinct roots.items ≡ false) }
    {
        if roots.is_empty() {
            return Err(NewFault::NoRoots);
        }
        if roots.len() > ROOTS {
            return Err(NewFault::TooManyRoots);
        }
        if !are_distinct(&roots) {
            return Err(NewFault::DuplicateRoot);
        }
        Ok(Core {
            roots: Sequence::from_vec(roots),
            versions: VersionMap::new(alloc),
            clients: Vec::new(alloc),
            given: 0,
        })
    }

    /// The core's step for an event, and its reply. Where memory runs out the core stands for the same
    /// events as before. An edit that is no job takes none, nor does a Connect that is refused, an
    /// Aborted, a Disconnect, or a request of a client that isn't connected. An event of one client
    /// leaves the record of every other as it was. An Ask is answered by a full reload exactly where one
    /// is to be sent, and each message that is answered can be written.
    pub fn step(&mut self, alloc: Global, event: Event) -> Result<Reply, AllocError>
        ensures stands { (past : List model.Event) → StandsFor past self.old
            → OnOk result (StandsFor (event_of event ∷ past) self.new) }
        ensures reply { (past : List model.Event) → StandsFor past self.old
            → IfOk result
            (λ reply.
            said (model.step self.old.roots (model.core_after self.old.roots past) (event_of event)).1
            ≡ reply) }
        ensures roots { self.new.roots ≡ self.old.roots }
        ensures kept { (past : List model.Event) → StandsFor past self.old
            → OnErr result (StandsFor past self.new) }
        ensures free { (past : List model.Event) → StandsFor past self.old
            → is_free (model.core_after self.old.roots past) (event_of event) ≡ true → IsOk result }
        ensures written { (past : List model.Event) → StandsFor past self.old → IfOk result IsWritten }
        ensures others { (j : ℕ) (k : client.Kept) → leaves j (event_of event) ≡ true
            → model.client_at self.old.clients j ≡ Some k → model.client_at self.new.clients j ≡ Some k }
        ensures reload { (past : List model.Event)
            (i : ℕ) (c : Client) (path : List Name) → StandsFor past self.old
            → event_of event ≡ model.request i ask
            → model.client_at (model.core_after self.old.roots past).clients i ≡ Some c
            → IfOk result
            (λ reply. (reload_path reply ≡ Some path)
            ↔ IsReloadSent (model.core_after self.old.roots past).sources c path) }
    {
        match event {
            Event::Edit(name, text) => self.edit(name, text),
            Event::Settle(transformed, ver) => self.settle(alloc, transformed, ver),
            Event::Connect(names) => self.connect(alloc, names),
            Event::Ask(client) => ask(alloc, &mut self.clients, &self.versions, client),
            Event::Fetch(client, name) => {
                fetch(alloc, &mut self.clients, &self.versions, client, name)
            }
            Event::Applied(client, table) => {
                applied(alloc, &mut self.clients, &self.versions, client, &table)
            }
            Event::Aborted(client) => Ok(aborted(&mut self.clients, &self.versions, client)),
            Event::Invalidate(client, name, ver) => {
                invalidate(&mut self.clients, &self.versions, client, name, ver)
            }
            Event::Disconnect(client) => Ok(self.disconnect(client)),
        }
    }
}
