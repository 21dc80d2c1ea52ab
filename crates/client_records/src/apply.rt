// A client tells that it applied the plan under way, and what is now on its page. Where that is what the
// plan makes of the page, the page has these modules from now on. All that takes memory comes before
// any change that counts: a name that is known and unmarked is as good as one that isn't known.
ghost use Rattle.std.specs.Prelude.{◌≡◌, ◌++◌, ℕ, filter, not, IfOk, OnErr, OnOk};
ghost use Rattle.std.specs.Cmp.Lexicographic.{slice_cmp};
ghost use Rattle.std.specs.List.Sorted.{IsStrictlySortedBy};
ghost use Rattle.std.specs.Ordering.{nat_cmp};
ghost use Rattle.core_model.specs.Client.{Client};
ghost use Rattle.core_model.specs.Names.{names_of};
ghost use Rattle.core_model.specs.Requests.{applied_as, heard};
ghost use Rattle.core_model.specs.Sources.{Sources};
ghost use Rattle.core_model.specs.View.{is_in};
ghost use Rattle.page_plan.specs.Renewals.{IsClosed};
ghost use Rattle.client_records.specs.Answers.{IsWritten, reply_of};
ghost use Rattle.client_records.specs.Inside.{AreCounted};
ghost use Rattle.client_records.specs.Made.{HasMade};
ghost use Rattle.client_records.specs.Record.{IsRecord};

use crate::answer::Answer;
use crate::client_record::ClientRecord;
use core_model::Refusal;
use hmr_types::{ModName, Sequence, Table};
use module_graph::{View, copy_name};
use page_marks::{enter_all, is_on, renew_all};
use page_plan::Applied;
use prune_list::unreached;
use std::alloc::{AllocError, Global};
use update_msgs::ServerMsg;
use version_map::VersionMap;

impl ClientRecord {
    /// The plan under way is applied, where the table told is what it makes of the page. Where memory
    /// runs out nothing changes. Where each module that an update replaces lists what it listed before, but
    /// for at most one, which imports besides only modules of the page, it takes one walk of the table beside
    /// the page, and else time in proportion to what is replaced; else it walks the plan's modules and those
    /// of the page.
    pub fn applied(
        &mut self,
        alloc: Global,
        sources: &VersionMap,
        table: &Table,
    ) -> Result<Answer, AllocError>
        ensures stands { (i : ℕ) (c : Client) → IsRecord sources.now c self.old
            → OnOk result (IsRecord sources.now (heard i sources.now c (applied_as table.now)).0 self.new) }
        ensures reply { (i : ℕ) (c : Client) → IsRecord sources.now c self.old
            → IfOk result (λ answer. reply_of answer ≡ (heard i sources.now c (applied_as table.now)).1) }
        ensures written { IfOk result IsWritten }
        ensures unchanged { (s : Sources) (c : Client) → IsRecord s c self.old
            → OnErr result (IsRecord s c self.new) }
    {
        let found = self.renewal(alloc, table)?;
        match found {
            Some(renewal) => {
                self.renew(sources, renewal)?;
                Ok(Answer::To(ServerMsg::Done))
            }
            None => self.applied_anew(alloc, sources, table),
        }
    }

    // The same, with a view that is put together anew.
    fn applied_anew(
        &mut self,
        alloc: Global,
        sources: &VersionMap,
        table: &Table,
    ) -> Result<Answer, AllocError>
        ensures stands { (i : ℕ) (c : Client) → IsRecord sources.now c self.old
            → OnOk result (IsRecord sources.now (heard i sources.now c (applied_as table.now)).0 self.new) }
        ensures reply { (i : ℕ) (c : Client) → IsRecord sources.now c self.old
            → IfOk result (λ answer. reply_of answer ≡ (heard i sources.now c (applied_as table.now)).1) }
        ensures written { IfOk result IsWritten }
        ensures unchanged { (s : Sources) (c : Client) → IsRecord s c self.old
            → OnErr result (IsRecord s c self.new) }
    {
        let Some(plan) = &self.plan else {
            return Ok(Answer::Refused(Refusal::OutOfTurn));
        };
        match plan.apply(alloc, self.roots.as_slice(), &self.view, table)? {
            Applied::Unfetched(name) => Ok(Answer::Refused(Refusal::Unfetched(name))),
            Applied::Mismatch { name, told, kept } => {
                Ok(Answer::Refused(Refusal::Mismatch { name, told, kept }))
            }
            Applied::Done(made) => {
                self.take(alloc, sources, made)?;
                Ok(Answer::To(ServerMsg::Done))
            }
        }
    }

    // The page has these modules from now on, and no plan is under way.
    fn take(&mut self, alloc: Global, sources: &VersionMap, made: View) -> Result<(), AllocError>
        requires rising { IsStrictlySortedBy (slice_cmp nat_cmp) (names_of made) }
        requires counted { AreCounted made }
        requires closed { IsClosed self.old.roots made }
        ensures made { OnOk result (HasMade sources.now made self.old self.new) }
        ensures unchanged { (s : Sources) (c : Client) → IsRecord s c self.old
            → OnErr result (IsRecord s c self.new) }
    {
        let dropped = unreached(alloc, &made, self.roots.as_slice())?;
        let names = both_names(alloc, &self.view, &made)?;
        enter_all(&mut self.queue, &self.view, &names)?;
        renew_all(&mut self.queue, &names, &made, sources);
        self.queue.unforce_all();
        self.queue.release();
        self.loaded = true;
        self.view = made;
        self.plan = None;
        self.dropped = Sequence::from_vec(dropped);
        Ok(())
    }
}

// The names of the modules of both views, each once.
fn both_names(alloc: Global, view: &View, made: &View) -> Result<Vec<ModName>, AllocError>
    ensures { IfOk result (λ names. names.items
        ≡ names_of made.now ++ filter (λ n. not (is_in made.now n)) (names_of view.now)) }
{
    let mut names = made.names(alloc)?;
    let kept = view.names(alloc)?;
    push_others(&mut names, &kept, made)?;
    Ok(names)
}

// Adds those of the names that aren't on the page.
fn push_others(names: &mut Vec<ModName>, more: &[ModName], page: &View) -> Result<(), AllocError>
    ensures { OnOk result (names.new.items
        ≡ names.old.items ++ filter (λ n. not (is_in page.now n)) more.now) }
{
    for name in more {
        if !is_on(page, name) {
            names.push(copy_name(name)?)?;
        }
    }
    Ok(())
}
