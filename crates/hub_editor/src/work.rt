// An edit that was made, with what is kept of it for its job.
ghost use Rattle.std.specs.Prelude.{◌≡◌, ◌≤◌, IfOk, IfSome};
ghost use Rattle.std.specs.Option.{option_to_list};
ghost use Rattle.hmr_types.specs.declared.limits.TheConstants.{MESSAGE_BYTES};
ghost use Rattle.core_model.specs.Formed.{IsVersion};
ghost use Rattle.hub_editor.specs.Edits.{IsGiven, IsWorkable, has_version, is_waiting};
ghost use Rattle.hub_editor.specs.Edits.{jobs_of, length_of, text_in};
ghost use Rattle.hub_editor.specs.declared.worked.Worked.TheVariants.{No};

use crate::worked::Worked;
use events_and_replies::copy_text;
use hmr_types::{EditRefusal, ModName, Ver};
use std::alloc::{AllocError, Global};
use std::marker::Model;
use transform_pool::TextJob;
use version_map::EditOutcome;

/// An edit, what was answered to it, and whether the editor worked its job. The text is kept, since the job
/// may come back or stay outstanding.
#[derive(Drop)]
pub(crate) struct Work {
    name: ModName,
    text: Option<Vec<u8>>,
    answer: Result<EditOutcome, EditRefusal>,
    worked: Worked,
}

impl Model for Work {
    ghost use Rattle.hub_editor.specs.Edits.{IsKept, Made, text_in};

    ghost Value = { Made };

    ghost view = { λ w.
        record { name = w.name; text = text_in w.text; answer = w.answer; worked = w.worked } };

    ghost invariant = { λ w. IsKept (w.name, text_in w.text) w.answer };
}

impl Work {
    /// An edit of a name and a text of at most 16,777,216 bytes together, whose job the editor didn't work.
    pub fn new(
        name: ModName,
        text: Option<Vec<u8>>,
        answer: Result<EditOutcome, EditRefusal>,
    ) -> Work
        requires short { length_of (name, text_in text) ≤ MESSAGE_BYTES }
        requires given { IsGiven answer }
        ensures { result ≡ record { name = name; text = text_in text; answer = answer; worked = No } }
    {
        Work {
            name,
            text,
            answer,
            worked: Worked::No,
        }
    }

    /// A copy of the name.
    pub fn name(&self) -> Result<ModName, AllocError>
        ensures { IfOk result (λ name. name ≡ self.now.name) }
    {
        self.name.clone()
    }

    /// What was answered.
    pub fn answer(&self) -> Result<EditOutcome, EditRefusal>
        ensures is { result ≡ self.now.answer }
        ensures given { IsGiven result }
    {
        self.answer
    }

    /// Whether it brought a job that the editor didn't work.
    pub fn is_waiting(&self) -> bool
        ensures { result ≡ is_waiting self.now }
    {
        matches!(self.answer, Ok(EditOutcome::Job(_))) && matches!(self.worked, Worked::No)
    }

    /// Whether it brought a job of this version.
    pub fn has_version(&self, ver: Ver) -> bool
        ensures { result ≡ has_version ver self.now.answer }
    {
        match self.answer {
            Ok(EditOutcome::Job(own)) => own == ver,
            Ok(EditOutcome::Same | EditOutcome::Removed(_)) | Err(_) => false,
        }
    }

    /// The job that it brought.
    pub fn into_job(self) -> Option<TextJob>
        ensures job { option_to_list result ≡ jobs_of self }
        ensures version { IfSome result (λ job. IsVersion job.ver) }
        ensures workable { IfSome result IsWorkable }
    {
        match (self.answer, self.text) {
            (Ok(EditOutcome::Job(ver)), Some(text)) => Some(TextJob::new(self.name, text, ver)),
            _ => None,
        }
    }

    /// The job that it brought, with a copy of the text. It fails only where memory runs out.
    pub fn job(&self, alloc: Global) -> Result<Option<TextJob>, AllocError>
        ensures job { IfOk result (λ job. option_to_list job ≡ jobs_of self.now) }
        ensures version { IfOk result (λ job. IfSome job (λ j. IsVersion j.ver)) }
    {
        let text = copy_text(alloc, &self.text)?;
        Ok(Work::new(self.name.clone()?, text, self.answer).into_job())
    }

    /// The editor worked the job.
    pub fn mark(&mut self, worked: Worked)
        ensures { self.new ≡ record self.old { worked = worked } }
    {
        self.worked = worked;
    }
}
