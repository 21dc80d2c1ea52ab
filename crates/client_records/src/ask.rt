// A client asks what there is to do: the first row of the table that applies. A plan under way comes
// first, then a waiting notice, then what there is to do for the page.
ghost use Rattle.std.specs.Prelude.{◌≡◌, IfOk, OnErr, OnOk};
ghost use Rattle.hmr_types.specs.declared.limits.TheConstants.{LARGEST_CLIENT};
ghost use Rattle.update_msgs.specs.Writable.{IsBetween};
ghost use Rattle.core_model.specs.Asking.{ask_row, asked};
ghost use Rattle.core_model.specs.Client.{Client};
ghost use Rattle.core_model.specs.Requests.{ask, ask_reply, heard};
ghost use Rattle.core_model.specs.Sources.{Sources};
ghost use Rattle.client_records.specs.Answers.{IsWritten, reply_of};
ghost use Rattle.client_records.specs.Asked.{notice_reply};
ghost use Rattle.client_records.specs.Record.{IsRecord};
ghost use Rattle.client_records.specs.Steps.{IsFor, IsTellable, next_row, row_of, triggered_by};

use crate::answer::Answer;
use crate::client_record::{ClientRecord, is_idle};
use crate::fetch::wide;
use crate::row::Row;
use core_model::Refusal;
use hmr_types::{ClientId, ModName, TextFault};
use std::alloc::{AllocError, Global};
use update_msgs::ServerMsg;
use version_map::VersionMap;

impl ClientRecord {
    /// What there is to do for the client, which is connected under this number. Where memory runs
    /// out nothing changes. It takes the time of the spread of what changed.
    pub fn ask(
        &mut self,
        alloc: Global,
        number: ClientId,
        sources: &VersionMap,
    ) -> Result<Answer, AllocError>
        requires { IsBetween 1 LARGEST_CLIENT number }
        ensures stands { (c : Client) → IsRecord sources.now c self.old
            → OnOk result (IsRecord sources.now (heard number sources.now c ask).0 self.new) }
        ensures reply { (c : Client) → IsRecord sources.now c self.old
            → IfOk result (λ answer. reply_of answer ≡ (heard number sources.now c ask).1) }
        ensures written { (c : Client) → IsRecord sources.now c self.old → IfOk result IsWritten }
        ensures unchanged { (s : Sources) (c : Client) → IsRecord s c self.old
            → OnErr result (IsRecord s c self.new) }
    {
        if !is_idle(&self.plan) {
            return Ok(Answer::Refused(Refusal::OutOfTurn));
        }
        match self.queue.next_notice() {
            Some((name, fault)) => Ok(told(name, fault)),
            None => self.ask_page(alloc, number, sources),
        }
    }

    // What there is to do for the page, where that is the row of the table.
    fn ask_page(
        &mut self,
        alloc: Global,
        number: ClientId,
        sources: &VersionMap,
    ) -> Result<Answer, AllocError>
        requires { IsBetween 1 LARGEST_CLIENT number }
        ensures stands { (c : Client) → IsRecord sources.now c self.old
            → ask_row sources.now c ≡ next_row sources.now self.old
            → OnOk result (IsRecord sources.now (heard number sources.now c ask).0 self.new) }
        ensures reply { (c : Client) → IsRecord sources.now c self.old
            → ask_row sources.now c ≡ next_row sources.now self.old
            → IfOk result (λ answer. reply_of answer ≡ (heard number sources.now c ask).1) }
        ensures written { (c : Client) → IsRecord sources.now c self.old → IfOk result IsWritten }
        ensures unchanged { OnErr result (self.new ≡ self.old) }
    {
        let row = self.row(alloc, sources)?;
        self.act(alloc, number, sources, row)
    }

    // Does what there is to do for the page.
    fn act(
        &mut self,
        alloc: Global,
        number: ClientId,
        sources: &VersionMap,
        row: Row,
    ) -> Result<Answer, AllocError>
        requires { IsBetween 1 LARGEST_CLIENT number }
        ensures stands { (c : Client) → IsRecord sources.now c self.old
            → OnOk result
            (IsRecord sources.now (asked (row_of self.old.dropped row) sources.now c) self.new) }
        ensures reply { (c : Client) → IsRecord sources.now c self.old
            → IsFor row (triggered_by sources.now self.old) → IsTellable self.old.view row
            → IfOk result
            (λ answer. reply_of answer
            ≡ ask_reply number sources.now (asked (row_of self.old.dropped row) sources.now c)
            (row_of self.old.dropped row)) }
        ensures written { (s : Sources) → IsFor row (triggered_by s self.old) → IsTellable self.old.view row
            → IfOk result IsWritten }
        ensures unchanged { OnErr result (self.new ≡ self.old) }
    {
        match row {
            Row::Idle => Ok(Answer::To(ServerMsg::Idle)),
            Row::Load => self.load(alloc, number, sources),
            Row::Prune => Ok(self.prune(alloc)),
            Row::Reload(reason, triggered) => Ok(self.reload(alloc, sources, reason, triggered)),
            Row::Update(replaced, pairs, triggered) => {
                self.update(alloc, sources, replaced, pairs.as_slice(), triggered)
            }
        }
    }
}

// The fault of a module, as the client is told of it.
fn told(name: ModName, fault: TextFault) -> Answer
    ensures reply { reply_of result ≡ notice_reply (name, fault) }
    ensures written { IsWritten result }
{
    Answer::To(ServerMsg::Error {
        path: name,
        line: wide(fault.line),
        column: wide(fault.col),
        kind: fault.word,
    })
}
