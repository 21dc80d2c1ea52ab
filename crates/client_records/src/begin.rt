// A plan begins: a load, a reload or an update, and what the client is told of it.
ghost use Rattle.std.specs.Prelude.{◌≡◌, ◌≤◌, [], Some, true, All, IfOk, OnErr, OnOk, length, map};
ghost use Rattle.hmr_types.specs.declared.limits.TheConstants.{LARGEST_CLIENT, LARGEST_NUMBER};
ghost use Rattle.propagate.specs.Passing.{cause_in, path_of};
ghost use Rattle.update_msgs.specs.Names.{rise};
ghost use Rattle.update_msgs.specs.Writable.{IsBetween};
ghost use Rattle.update_msgs.specs.declared.message.ServerMsg.TheVariants as msg;
ghost use Rattle.core_model.specs.Asking as asking;
ghost use Rattle.core_model.specs.Asking.{asked, js_update, number_or_zero};
ghost use Rattle.core_model.specs.Client.{Client, next_batch};
ghost use Rattle.core_model.specs.FreshLoad.{version_in};
ghost use Rattle.core_model.specs.Names.{at};
ghost use Rattle.core_model.specs.Requests.{to_client};
ghost use Rattle.client_records.specs.Answers.{IsWritten, reply_of};
ghost use Rattle.client_records.specs.Inside.{AreFetched};
ghost use Rattle.client_records.specs.Record.{IsRecord};

use crate::answer::Answer;
use crate::client_record::ClientRecord;
use hmr_types::limits::LARGEST_NUMBER;
use hmr_types::{ClientId, ModName, PlanKind, ReloadCause, Sequence};
use module_graph::copy_of;
use page_plan::Plan;
use propagate::Reason;
use std::alloc::{AllocError, Global};
use update_msgs::{JsUpdate, ServerMsg};
use version_map::VersionMap;

impl ClientRecord {
    /// The page is to be loaded. Where memory runs out nothing changes.
    pub(crate) fn load(
        &mut self,
        alloc: Global,
        number: ClientId,
        sources: &VersionMap,
    ) -> Result<Answer, AllocError>
        requires { IsBetween 1 LARGEST_CLIENT number }
        ensures stands { (c : Client) → IsRecord sources.now c self.old
            → OnOk result (IsRecord sources.now (asked asking.load sources.now c) self.new) }
        ensures reply { IfOk result
            (λ answer. reply_of answer ≡ to_client (msg.Connected number self.old.roots)) }
        ensures written { IfOk result IsWritten }
        ensures unchanged { OnErr result (self.new ≡ self.old) }
    {
        let roots = copy_of(alloc, self.roots.as_slice())?;
        self.begin(Plan::new(alloc, PlanKind::Load), sources);
        Ok(Answer::To(ServerMsg::Connected {
            client: number,
            roots: Sequence::from_vec(roots),
        }))
    }

    /// The page is to be loaded again, for this reason.
    pub(crate) fn reload(
        &mut self,
        alloc: Global,
        sources: &VersionMap,
        reason: Reason,
        triggered: Sequence<ModName>,
    ) -> Answer
        ensures stands { (c : Client) → IsRecord sources.now c self.old
            → IsRecord sources.now (asked (asking.reload (path_of reason)) sources.now c) self.new }
        ensures reply { reply_of result
            ≡ to_client
            (msg.FullReload (cause_in reason) (path_of reason) (next_batch self.old.batches) triggered) }
        ensures written { 1 ≤ length (path_of reason) → rise triggered ≡ true → IsWritten result }
    {
        let batch = self.count();
        self.begin(Plan::new(alloc, PlanKind::Reload), sources);
        let (cause, path) = parts(reason);
        Answer::To(ServerMsg::FullReload {
            cause,
            path,
            batch,
            triggered,
        })
    }

    /// These modules are to be replaced, and each boundary to be told. Where memory runs out
    /// nothing changes.
    pub(crate) fn update(
        &mut self,
        alloc: Global,
        sources: &VersionMap,
        replaced: Sequence<ModName>,
        pairs: &[(ModName, ModName)],
        triggered: Sequence<ModName>,
    ) -> Result<Answer, AllocError>
        ensures stands { (c : Client) → IsRecord sources.now c self.old
            → OnOk result
            (IsRecord sources.now (asked (asking.update replaced pairs.now) sources.now c) self.new) }
        ensures reply { IfOk result
            (λ answer. reply_of answer
            ≡ to_client
            (msg.Update replaced (map (js_update sources.now) pairs.now)
            (next_batch self.old.batches) triggered)) }
        ensures written { rise triggered ≡ true → IfOk result IsWritten }
        ensures unchanged { OnErr result (self.new ≡ self.old) }
    {
        let updates = updates(alloc, sources, pairs)?;
        let plan = Plan::update(alloc, replaced.as_slice())?;
        let batch = self.count();
        self.begin(plan, sources);
        Ok(Answer::To(ServerMsg::Update {
            replaced,
            updates: Sequence::from_vec(updates),
            batch,
            triggered,
        }))
    }

    // This plan begins.
    fn begin(&mut self, plan: Plan, sources: &VersionMap)
        requires { AreFetched plan.staged }
        ensures { self.new ≡ record self.old { plan = Some plan; plan_at = sources.now.served_no } }
    {
        self.plan = Some(plan);
        self.plan_at = sources.served_no();
    }

    // The number of the next reload or update.
    fn count(&mut self) -> u64
        ensures number { result ≡ next_batch self.old.batches }
        ensures counted { self.new ≡ record self.old { batches = next_batch self.old.batches } }
        ensures least { 1 ≤ result }
        ensures most { result ≤ LARGEST_NUMBER }
    {
        let batch = next_batch(self.batches);
        self.batches = batch;
        batch
    }
}

fn next_batch(batches: u64) -> u64
    ensures number { result ≡ next_batch batches }
    ensures least { 1 ≤ result }
    ensures most { batches ≤ LARGEST_NUMBER → result ≤ LARGEST_NUMBER }
{
    if batches < LARGEST_NUMBER {
        batches + 1
    } else {
        batches
    }
}

// Where the reason's path ends, and the path.
fn parts(reason: Reason) -> (ReloadCause, Sequence<ModName>)
    ensures cause { result.0 ≡ cause_in reason }
    ensures path { result.1 ≡ path_of reason }
{
    match reason {
        Reason::Root(path) => (ReloadCause::Root, path),
        Reason::Declined(path) => (ReloadCause::Declined, path),
    }
}

// Each boundary with what it is told of, and the served version of that.
fn updates(
    alloc: Global,
    sources: &VersionMap,
    pairs: &[(ModName, ModName)],
) -> Result<Vec<JsUpdate>, AllocError>
    ensures updates { IfOk result (λ updates. updates.items ≡ map (js_update sources.now) pairs.now) }
    ensures timed { IfOk result (λ updates. All (λ u. u.timestamp ≤ LARGEST_NUMBER) updates.items) }
{
    let mut updates = Vec::new(alloc);
    for pair in pairs {
        let update = update_of(sources, &pair.0, &pair.1)?;
        updates.push(update)?;
    }
    Ok(updates)
}

fn update_of(
    sources: &VersionMap,
    boundary: &ModName,
    via: &ModName,
) -> Result<JsUpdate, AllocError>
    ensures update { IfOk result (λ u. u ≡ js_update sources.now (boundary.now, via.now)) }
    ensures timed { IfOk result (λ u. u.timestamp ≤ LARGEST_NUMBER) }
{
    let timestamp = served_version(sources, via);
    Ok(JsUpdate {
        path: boundary.clone()?,
        accepted_path: via.clone()?,
        timestamp,
    })
}

// The served version of the module, 0 for none.
fn served_version(sources: &VersionMap, name: &ModName) -> u64
    ensures version { result ≡ number_or_zero (version_in (at sources.now.served name.now)) }
    ensures most { result ≤ LARGEST_NUMBER }
{
    match sources.served(name) {
        Some(served) => served.ver,
        None => 0,
    }
}
