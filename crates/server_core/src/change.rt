// An edit or a result: what it is to the sources, and then to each client.
ghost use Rattle.std.specs.Prelude.{◌≡◌, None, Ok, Some, false, true};
ghost use Rattle.std.specs.Option.{option_map};
ghost use Rattle.core_model.specs.Core as model;
ghost use Rattle.core_model.specs.Sources as changes;
ghost use Rattle.server_core.specs.Kept.{IsStep};
ghost use Rattle.events_and_replies.specs.Said.{is_good};

use crate::clients::{copies_for, give_notices, make_room, tell_changed};
use crate::page_core::Core;
use events_and_replies::Reply;
use hmr_types::{ModName, Outcome, Ver};
use std::alloc::{AllocError, Global};
use transforms::Transformed;
use version_map::{EditFault, EditOutcome, Settled};

impl Core {
    /// A module gets a text, or its source is taken away.
    pub(crate) fn edit(&mut self, name: ModName, text: Option<Vec<u8>>) -> Result<Reply, AllocError>
        ensures { IsStep
            (model.change (changes.edit name (option_map (λ t. t.items) text))) self.old self.new result }
    {
        match text {
            Some(text) => self.give(name, text),
            None => self.take_away(&name),
        }
    }

    fn give(&mut self, name: ModName, text: Vec<u8>) -> Result<Reply, AllocError>
        ensures { IsStep (model.change (changes.edit name (Some text.items))) self.old self.new result }
    {
        match self.versions.edit(name, Some(text)) {
            Ok(outcome) => Ok(Reply::Edited(outcome)),
            Err(EditFault::Refused(refusal)) => Ok(Reply::EditRefused(refusal)),
            Err(EditFault::NoMemory) => Err(AllocError),
        }
    }

    // Each client is told of a removal, and none of a refusal.
    fn take_away(&mut self, name: &ModName) -> Result<Reply, AllocError>
        ensures { IsStep (model.change (changes.edit name.now None)) self.old self.new result }
    {
        match self.versions.take_away(name) {
            Ok(EditOutcome::Removed(ver)) => {
                tell_changed(&mut self.clients, &self.versions, name);
                Ok(Reply::Edited(EditOutcome::Removed(ver)))
            }
            Ok(EditOutcome::Same) => Ok(Reply::Edited(EditOutcome::Same)),
            Ok(EditOutcome::Job(ver)) => Ok(Reply::Edited(EditOutcome::Job(ver))),
            Err(EditFault::Refused(refusal)) => Ok(Reply::EditRefused(refusal)),
            Err(EditFault::NoMemory) => Err(AllocError),
        }
    }

    /// The result for a version of its module comes.
    pub(crate) fn settle(
        &mut self,
        alloc: Global,
        transformed: Transformed,
        ver: Ver,
    ) -> Result<Reply, AllocError>
        ensures { IsStep
            (model.change (changes.result transformed.name transformed.text transformed.outcome ver))
            self.old self.new result }
    {
        let name = transformed.name().clone()?;
        if is_good(transformed.outcome()) {
            Ok(self.settle_good(transformed, ver, &name))
        } else {
            self.settle_bad(alloc, transformed, ver, &name)
        }
    }

    // A good result is served, and each client is told that the module changed; or it is late.
    fn settle_good(&mut self, transformed: Transformed, ver: Ver, name: &ModName) -> Reply
        requires good { is_good transformed.outcome ≡ true }
        requires name { name.now ≡ transformed.name }
        ensures { IsStep
            (model.change (changes.result transformed.name transformed.text transformed.outcome ver))
            self.old self.new (Ok result) }
    {
        let settled = self.versions.settle(transformed, ver);
        if let Settled::Served = settled {
            tell_changed(&mut self.clients, &self.versions, name);
        }
        Reply::Settled(settled)
    }

    // A bad result's fault waits to be told to each client; or the result is late. What the notices need
    // is had before the result is taken, so that the core stays as it was where memory runs out.
    fn settle_bad(
        &mut self,
        alloc: Global,
        transformed: Transformed,
        ver: Ver,
        name: &ModName,
    ) -> Result<Reply, AllocError>
        requires bad { is_good transformed.outcome ≡ false }
        requires name { name.now ≡ transformed.name }
        ensures { IsStep
            (model.change (changes.result transformed.name transformed.text transformed.outcome ver))
            self.old self.new result }
    {
        make_room(&mut self.clients)?;
        let copies = copies_for(alloc, &self.clients, name)?;
        let settled = self.versions.settle(transformed, ver);
        if let Settled::RefusedText(fault) = settled {
            give_notices(&mut self.clients, copies, fault, name);
        }
        Ok(Reply::Settled(settled))
    }
}

fn is_good(outcome: &Outcome) -> bool
    ensures { result ≡ is_good outcome.now }
{
    match outcome {
        Outcome::Good(_) => true,
        Outcome::Bad(_) => false,
    }
}
