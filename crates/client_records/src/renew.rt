// An update that is applied in place. Where each module that it replaces still imports what it imported
// before, and besides only modules of the page, what is reached stays as it was: the page gets the new
// entries, and only their marks change.
ghost use Rattle.std.specs.Prelude.{◌≡◌, ◌&&◌, true, IfOk, IfSome, IsTrue, OnErr, OnOk};
ghost use Rattle.std.specs.Cmp.Lexicographic.{slice_cmp};
ghost use Rattle.std.specs.List.Sorted.{IsStrictlySortedBy};
ghost use Rattle.std.specs.Ordering.{nat_cmp};
ghost use Rattle.core_model.specs.Client.{Client};
ghost use Rattle.core_model.specs.Names.{names_of};
ghost use Rattle.core_model.specs.Sources.{Sources};
ghost use Rattle.core_model.specs.View.{table_of};
ghost use Rattle.page_plan.specs.Renewals.{is_growing, put_all, renewed_view};
ghost use Rattle.client_queue.specs.Queue.{is_none_left};
ghost use Rattle.client_records.specs.InPlace.{IsFitting, IsInPlace};
ghost use Rattle.client_records.specs.Made.{HasMade};
ghost use Rattle.client_records.specs.Record.{IsRecord};

use crate::client_record::{ClientRecord, none_left};
use hmr_types::{ModName, Sequence, Table};
use module_graph::View;
use page_marks::renew_all;
use page_plan::{Plan, Renewed, put_first, put_in_place};
use std::alloc::{AllocError, Global};
use version_map::VersionMap;

/// The names of the modules that an update replaces, and what was fetched of them.
#[derive(Drop)]
pub(crate) struct Renewal {
    names: Vec<ModName>,
    rows: Vec<Renewed>,
}

impl ClientRecord {
    /// What the plan under way replaces, where it can be applied in place and the table told is what it
    /// makes of the page; None where that isn't known. It takes one walk of the table beside the page,
    /// and else time in proportion to what is replaced.
    pub(crate) fn renewal(
        &self,
        alloc: Global,
        table: &Table,
    ) -> Result<Option<Renewal>, AllocError>
        ensures in_place { IfOk result
            (λ r. IfSome r (λ w. IsInPlace self.now w.names.items w.rows.items)) }
        ensures fits { IfOk result
            (λ r. IfSome r (λ w. IsFitting self.now table.now (put_all w.rows.items self.now.view))) }
    {
        let Some(plan) = &self.plan else {
            return Ok(None);
        };
        if !is_whole(self.loaded, &self.dropped) {
            return Ok(None);
        }
        let names = plan.replaced(alloc)?;
        if !fits(plan, &self.view, table, &names) {
            return Ok(None);
        }
        let rows = plan.fetched(alloc, &names)?;
        Ok(Some(Renewal { names, rows }))
    }

    /// The page has the new entries from now on, and no plan is under way. Where memory runs out nothing
    /// changes. It takes time in proportion to what is replaced.
    pub(crate) fn renew(&mut self, sources: &VersionMap, renewal: Renewal) -> Result<(), AllocError>
        requires { IsInPlace self.old renewal.names.items renewal.rows.items }
        ensures made { (c : Client) → IsRecord sources.now c self.old
            → OnOk result
            (HasMade sources.now (put_all renewal.rows.items self.old.view) self.old self.new) }
        ensures unchanged { (s : Sources) (c : Client) → IsRecord s c self.old
            → OnErr result (IsRecord s c self.new) }
    {
        let Renewal { names, rows } = renewal;
        put_first(&mut self.view, &rows)?;
        put_in_place(&mut self.view, rows);
        renew_all(&mut self.queue, &names, &self.view, sources);
        self.queue.unforce_all();
        self.queue.release();
        self.plan = None;
        Ok(())
    }
}

// Whether the page is loaded, and nothing of it is dropped.
fn is_whole(loaded: bool, dropped: &Sequence<ModName>) -> bool
    ensures { result ≡ (loaded && is_none_left dropped.now) }
{
    loaded && none_left(dropped)
}

// Whether the plan can be applied in place, and this is the table of what it makes of the page.
fn fits(plan: &Plan, view: &View, table: &Table, names: &[ModName]) -> bool
    requires rising { IsStrictlySortedBy (slice_cmp nat_cmp) (names_of view.now) }
    requires names { names.now ≡ plan.now.replaced }
    ensures growing { IsTrue result → is_growing plan.now view.now ≡ true }
    ensures told { IsTrue result → table.now ≡ table_of (renewed_view plan.now view.now) }
{
    plan.is_growing(view, names) && plan.is_told(view, table, names)
}
