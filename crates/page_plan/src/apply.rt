// A plan is applied: its view, where nothing is left to be fetched and the table told is that of the
// view.
ghost use Rattle.std.specs.Prelude.{IfOk};
ghost use Rattle.page_plan.specs.Applied.{IsApplied};

use crate::plan::Plan;
use crate::versions::compared;
use crate::view::{new_view, unfetched};
use crate::walk::met;
use hmr_types::{ModName, Table, Ver};
use module_graph::{View, copy_name};
use std::alloc::{AllocError, Global};

/// What applying a plan answers.
#[derive(Drop)]
pub enum Applied {
    /// The plan needs this module, which wasn't fetched: the least such name.
    Unfetched(ModName),
    /// The table told isn't what the plan makes: the least name with another version, the version told
    /// and the one that the plan has, 0 for none.
    Mismatch { name: ModName, told: Ver, kept: Ver },
    /// All fits, and this is the view that the plan makes.
    Done(View),
}

impl Plan {
    /// What applying the plan to the page's modules answers a client that tells this table. It takes the
    /// time of a walk over the plan's modules and of a sort of their names.
    pub fn apply(
        &self,
        alloc: Global,
        roots: &[ModName],
        view: &View,
        told: &Table,
    ) -> Result<Applied, AllocError>
        ensures { IfOk result (IsApplied roots.now self.now view.now told.now) }
    {
        let names = met(alloc, roots, self, view)?;
        match unfetched(self, view, &names) {
            Some(name) => Ok(Applied::Unfetched(copy_name(name)?)),
            None => {
                let made = new_view(alloc, self, view, &names)?;
                let answer = compared(alloc, told, made)?;
                Ok(answer)
            }
        }
    }
}
