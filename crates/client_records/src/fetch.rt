// A client fetches a module for the plan under way: its served text is staged for the plan.
ghost use Rattle.std.specs.Prelude.{◌≡◌, ◌≤◌, ℕ, IfOk, OnErr, OnOk, IsUtf8};
ghost use Rattle.hmr_types.specs.declared.limits.TheConstants.{LARGEST_NUMBER};
ghost use Rattle.update_msgs.specs.Writable.{IsFormat, IsWritable};
ghost use Rattle.core_model.specs.Client.{Client};
ghost use Rattle.core_model.specs.Names.{at};
ghost use Rattle.core_model.specs.Page as page;
ghost use Rattle.core_model.specs.Requests.{fetch, fetch_reply, fetch_row, heard, row_source, to_client};
ghost use Rattle.core_model.specs.Sources.{Sources};
ghost use Rattle.page_plan.specs.Plans.{IsSamePlan};
ghost use Rattle.client_records.specs.Answers.{IsWritten, reply_of};
ghost use Rattle.client_records.specs.Inside.{AreFetched};
ghost use Rattle.client_records.specs.Record.{IsRecord};
ghost use Rattle.client_records.specs.Steps.{fetched_plan};

use crate::answer::Answer;
use crate::client_record::ClientRecord;
use core_model::Refusal;
use hmr_types::{Analysis, ModName, Text};
use module_graph::copy_name;
use page_plan::Plan;
use std::alloc::{AllocError, Global};
use update_msgs::ServerMsg;
use version_map::VersionMap;

impl ClientRecord {
    /// The served text of the module, which is staged for the plan under way; or why there is none.
    /// Where memory runs out nothing changes.
    pub fn fetch(
        &mut self,
        alloc: Global,
        sources: &VersionMap,
        name: ModName,
    ) -> Result<Answer, AllocError>
        ensures stands { (i : ℕ) (c : Client) → IsRecord sources.now c self.old
            → OnOk result (IsRecord sources.now (heard i sources.now c (fetch name)).0 self.new) }
        ensures reply { (i : ℕ) (c : Client) → IsRecord sources.now c self.old
            → IfOk result (λ answer. reply_of answer ≡ (heard i sources.now c (fetch name)).1) }
        ensures written { IfOk result IsWritten }
        ensures unchanged { (s : Sources) (c : Client) → IsRecord s c self.old
            → OnErr result (IsRecord s c self.new) }
    {
        let Some(plan) = &mut self.plan else {
            return Ok(Answer::Refused(Refusal::OutOfTurn));
        };
        fetch_for(plan, alloc, sources, name)
    }
}

// The answer of a Fetch for this plan.
fn fetch_for(
    plan: &mut Plan,
    alloc: Global,
    sources: &VersionMap,
    name: ModName,
) -> Result<Answer, AllocError>
    ensures plan { (p : page.Plan) → IsSamePlan p plan.old
        → OnOk result (IsSamePlan (fetched_plan (fetch_row sources.now name) name p) plan.new) }
    ensures reply { IfOk result (λ answer. reply_of answer ≡ fetch_reply (fetch_row sources.now name) name) }
    ensures written { IfOk result IsWritten }
    ensures counted { AreFetched plan.old.staged → AreFetched plan.new.staged }
    ensures unchanged { OnErr result (plan.new ≡ plan.old) }
{
    let Some(served) = sources.served(&name) else {
        return Ok(Answer::To(unserved(sources, name)));
    };
    let version = served.ver;
    let text = text_of(alloc, served.text.as_slice())?;
    let analysis = copy_analysis(&served.analysis)?;
    let copy = copy_name(&name)?;
    plan.stage(copy, version, analysis)?;
    Ok(Answer::To(ServerMsg::Text {
        path: name,
        version,
        text,
    }))
}

// Why the module isn't served.
fn unserved(sources: &VersionMap, name: ModName) -> ServerMsg
    ensures reply { to_client result ≡ fetch_reply (row_source (at sources.now.current name)) name }
    ensures written { (format : ℕ) → IsFormat format → IsWritable format result }
{
    if let Some(fault) = sources.refused(&name) {
        return ServerMsg::Broken {
            line: wide(fault.line),
            column: wide(fault.col),
            kind: fault.word,
            path: name,
        };
    }
    if sources.outstanding(&name) {
        return ServerMsg::NotYet { path: name };
    }
    ServerMsg::Missing { path: name }
}

// The number as a message has it.
pub(crate) fn wide(number: u32) -> u64
    ensures same { result ≡ number }
    ensures most { result ≤ LARGEST_NUMBER }
{
    u64::from(number)
}

// A copy of a text.
fn text_of(alloc: Global, bytes: &[u8]) -> Result<Text, AllocError>
    requires { IsUtf8 bytes.now }
    ensures { IfOk result (λ text. text ≡ bytes.now) }
{
    let copy = Vec::from_slice(alloc, bytes)?;
    let text = String::from_utf8(copy).unwrap();
    Ok(Text::from_string(text))
}

fn copy_analysis(analysis: &Analysis) -> Result<Analysis, AllocError>
    ensures { IfOk result (λ copy. copy ≡ analysis.now) }
{
    let copy = analysis.clone()?;
    Ok(copy)
}
