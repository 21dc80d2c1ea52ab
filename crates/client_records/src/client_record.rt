// What is kept of a client.
ghost use Rattle.std.specs.Prelude.{◌≡◌, ◌&&◌, IfOk, is_none};
ghost use Rattle.client_queue.specs.Queue.{is_none_left};
ghost use Rattle.core_model.specs.Client.{Client, new_client};
ghost use Rattle.core_model.specs.Sources.{Sources};
ghost use Rattle.core_model.specs.View.{table_of};
ghost use Rattle.client_records.specs.Record.{IsRecord, is_at_rest};

use client_queue::ClientQueue;
use hmr_types::{ModName, PlanKind, Sequence, Table};
use module_graph::View;
use page_marks::versions_of;
use page_plan::Plan;
use std::alloc::{AllocError, Global};
use std::marker::Model;

/// What the server keeps of a client. Contracts see the parts as a record; that they are what the
/// definitions have of the client is the relation `IsRecord`.
#[derive(Drop)]
pub struct ClientRecord {
    pub(crate) roots: Sequence<ModName>,
    pub(crate) batches: u64,
    pub(crate) loaded: bool,
    pub(crate) view: View,
    pub(crate) queue: ClientQueue,
    pub(crate) plan: Option<Plan>,
    pub(crate) plan_at: u64,
    pub(crate) dropped: Sequence<ModName>,
}

impl Model for ClientRecord {
    ghost use Rattle.client_records.specs.Record.{Kept};
    ghost use Rattle.client_records.specs.Inside.{IsSound, kept_of};

    ghost Value = { Kept };

    ghost view = { kept_of };

    ghost invariant = { IsSound };
}

impl ClientRecord {
    /// A client that has just been connected, with these roots of its page, where something was served
    /// or removed `served_no` times so far. Its page is to be loaded.
    pub fn new(alloc: Global, roots: Sequence<ModName>, served_no: u64) -> ClientRecord
        ensures { (s : Sources) → IsRecord s (new_client roots served_no) result }
    {
        ClientRecord {
            roots,
            batches: 0,
            loaded: false,
            view: View::new(alloc),
            queue: ClientQueue::new(alloc),
            plan: Some(Plan::new(alloc, PlanKind::Load)),
            plan_at: served_no,
            dropped: Sequence::new(alloc),
        }
    }

    /// The roots of the client's page.
    pub fn roots(&self) -> &[ModName]
        ensures { result.now ≡ self.now.roots }
    {
        self.roots.as_slice()
    }

    /// The modules of the client's page with their versions.
    pub fn table(&self, alloc: Global) -> Result<Table, AllocError>
        ensures { IfOk result (λ table. table ≡ table_of self.now.view) }
    {
        let names = self.view.names(alloc)?;
        let rows = versions_of(alloc, &self.view, names.len())?;
        // The modules rise by name, and each has the version of a counted edit.
        Ok(Table::of(rows).unwrap())
    }

    /// Whether there is nothing to be done for the client: its page is loaded, no plan is under way,
    /// and nothing is changed, dropped, forced or waiting as a notice.
    pub fn at_rest(&self) -> bool
        ensures { (s : Sources) (c : Client) → IsRecord s c self.now → result ≡ is_at_rest s c }
    {
        let clear = self.queue.is_clear();
        all_of(
            self.loaded,
            is_idle(&self.plan),
            none_left(&self.dropped),
            clear,
        )
    }
}

fn all_of(loaded: bool, idle: bool, undropped: bool, clear: bool) -> bool
    ensures { result ≡ (loaded && idle && undropped && clear) }
{
    loaded && idle && undropped && clear
}

// Whether no plan is under way.
pub(crate) fn is_idle(plan: &Option<Plan>) -> bool
    ensures { result ≡ is_none plan.now }
{
    plan.is_none()
}

pub(crate) fn none_left(names: &Sequence<ModName>) -> bool
    ensures { result ≡ is_none_left names.now }
{
    match names.as_slice() {
        [] => true,
        _ => false,
    }
}
