// A core of the roots of a record.
ghost use Rattle.transcript_check.specs.Following.{IsOpening};

use crate::halt::{Halt, bad};
use hmr_types::ModName;
use record_laws::Why;
use server_core::{Core, NewFault};
use std::alloc::Global;

/// A core of these roots that was told nothing; or that they are bad, which is said at this line.
pub(crate) fn new_core(alloc: Global, line: u64, roots: Vec<ModName>) -> Result<Core, Halt>
    ensures { IsOpening line roots.items result }
{
    match Core::new(alloc, roots) {
        Ok(core) => Ok(core),
        Err(NewFault::NoRoots) => Err(bad(line)),
        Err(NewFault::TooManyRoots) => Err(Halt::At(line, Why::Roots)),
        Err(NewFault::DuplicateRoot) => Err(Halt::At(line, Why::Roots)),
    }
}
