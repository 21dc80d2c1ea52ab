// What there is to do for a client, by how far what changed spreads.
ghost use Rattle.std.specs.Prelude.{◌≡◌, ◌++◌, ◌≤◌, ◌&&◌, List, IfOk, IfSome, length, option_map};
ghost use Rattle.propagate.specs.Passing.{cause_in, path_of};
ghost use Rattle.client_queue.specs.Queue.{is_none_left};
ghost use Rattle.core_model.specs.Asking.{row_reason, row_replaced};
ghost use Rattle.core_model.specs.Client.{Client, same_number};
ghost use Rattle.core_model.specs.Names.{Name, sorted};
ghost use Rattle.core_model.specs.Sources.{Sources};
ghost use Rattle.core_model.specs.Spread.{cause_of};
ghost use Rattle.core_model.specs.View.{View};
ghost use Rattle.client_records.specs.Record.{IsRecord};
ghost use Rattle.client_records.specs.Steps.{IsFor, IsTellable, before_of, due_row};
ghost use Rattle.client_records.specs.Steps.{next_row, row_of, triggered_by};

use crate::client_record::{ClientRecord, none_left};
use hmr_types::{ModName, Sequence};
use module_graph::rising;
use propagate::{Reason, Spread, spread};
use std::alloc::{AllocError, Global};
use version_map::VersionMap;

/// What there is to do for a client that asks, and has no plan under way and no notice waiting. A
/// reload and an update come with the names that they are for, rising by bytes.
#[derive(Drop)]
pub(crate) enum Row {
    /// Nothing.
    Idle,
    /// Its page is to be loaded.
    Load,
    /// What no root of its page reaches is to leave it.
    Prune,
    /// Its page is to be loaded again, for this reason.
    Reload(Reason, Sequence<ModName>),
    /// These modules are to be replaced, and these boundaries told of what they accept.
    Update(Sequence<ModName>, Sequence<(ModName, ModName)>, Sequence<ModName>),
}

impl ClientRecord {
    /// What there is to do, where no plan is under way and no notice waits.
    pub(crate) fn row(&self, alloc: Global, sources: &VersionMap) -> Result<Row, AllocError>
        ensures row { (c : Client) → IsRecord sources.now c self.now
            → IfOk result (λ row. row_of self.now.dropped row ≡ next_row sources.now self.now) }
        ensures names { (c : Client) → IsRecord sources.now c self.now
            → IfOk result (λ row. IsFor row (triggered_by sources.now self.now)) }
        ensures tellable { IfOk result (IsTellable self.now.view) }
    {
        let held = is_held(self.queue.held(), sources.served_no());
        let undropped = none_left(&self.dropped);
        match before(self.loaded, held, undropped) {
            Some(row) => Ok(row),
            None => self.due(alloc),
        }
    }

    /// What is to be done for what changed on the page and for what is forced. It takes the time of
    /// the spread of these.
    pub(crate) fn due(&self, alloc: Global) -> Result<Row, AllocError>
        ensures row { (s : Sources) (c : Client) → IsRecord s c self.now
            → IfOk result (λ row. (dropped : List Name) → row_of dropped row ≡ due_row s self.now) }
        ensures names { (s : Sources) (c : Client) → IsRecord s c self.now
            → IfOk result (λ row. IsFor row (triggered_by s self.now)) }
        ensures tellable { IfOk result (IsTellable self.now.view) }
    {
        let changed = self.queue.marked(alloc)?;
        let forced = self.queue.forced(alloc)?;
        let spread = spread(alloc, &self.view, self.roots.as_slice(), &changed, &forced)?;
        let triggered = triggered(changed, &forced)?;
        Ok(row_for(spread, triggered))
    }
}

fn is_held(held: Option<u64>, served_no: u64) -> bool
    ensures { result ≡ same_number held served_no }
{
    match held {
        Some(at) => at == served_no,
        None => false,
    }
}

// What there is to do before anything that changed is looked at, if there is.
fn before(loaded: bool, held: bool, undropped: bool) -> Option<Row>
    ensures { result ≡ before_of loaded held undropped }
{
    match (loaded, held, undropped) {
        (false, true, _) => Some(Row::Idle),
        (false, false, _) => Some(Row::Load),
        (true, _, false) => Some(Row::Prune),
        (true, true, true) => Some(Row::Idle),
        (true, false, true) => None,
    }
}

// The row of what a change comes to.
fn row_for(spread: Spread, triggered: Sequence<ModName>) -> Row
    ensures row { (dropped : List Name) → row_of dropped result
        ≡ row_reason (option_map path_of spread.reload) (row_replaced spread.replaced spread.pairs) }
    ensures names { IsFor result triggered }
    ensures tellable { (view : View) → IfSome spread.reload
        (λ r. (cause_in r ≡ cause_of view (path_of r)) × (1 ≤ length (path_of r))) → IsTellable view result }
{
    let Spread {
        reload,
        replaced,
        pairs,
    } = spread;
    match reload {
        Some(reason) => Row::Reload(reason, triggered),
        None => update_row(replaced, pairs, triggered),
    }
}

// The row of what is replaced, and of who is told of what.
fn update_row(
    replaced: Sequence<ModName>,
    pairs: Sequence<(ModName, ModName)>,
    triggered: Sequence<ModName>,
) -> Row
    ensures row { (dropped : List Name) → row_of dropped result ≡ row_replaced replaced pairs }
    ensures names { IsFor result triggered }
    ensures tellable { (view : View) → IsTellable view result }
{
    if are_none(&replaced, &pairs) {
        Row::Idle
    } else {
        Row::Update(replaced, pairs, triggered)
    }
}

fn are_none(replaced: &Sequence<ModName>, pairs: &Sequence<(ModName, ModName)>) -> bool
    ensures { result ≡ (is_none_left replaced.now && is_none_left pairs.now) }
{
    match (replaced.as_slice(), pairs.as_slice()) {
        ([], []) => true,
        _ => false,
    }
}

// The changed and the forced names, rising by bytes, each once.
fn triggered(changed: Vec<ModName>, forced: &[ModName]) -> Result<Sequence<ModName>, AllocError>
    ensures { IfOk result (λ names. names ≡ sorted (changed.items ++ forced.now)) }
{
    let all = appended(changed, forced)?;
    let names = rising(all)?;
    Ok(Sequence::from_vec(names))
}

fn appended(names: Vec<ModName>, more: &[ModName]) -> Result<Vec<ModName>, AllocError>
    ensures { IfOk result (λ all. all.items ≡ names.items ++ more.now) }
{
    let mut all = names;
    for name in more {
        all.push(name.clone()?)?;
    }
    Ok(all)
}
