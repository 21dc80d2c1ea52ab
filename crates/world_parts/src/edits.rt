// The job of a text that got a version.
ghost use Rattle.std.specs.Prelude.{◌≡◌, OnOk, Some};
ghost use Rattle.core_model.specs.Sources.{EditAnswer};
ghost use Rattle.world_model.specs.Editing.{with_job};
ghost use Rattle.world_parts.specs.Jobs.{AreBelow};
ghost use Rattle.world_parts.specs.Replies.{answer_in};

use crate::jobs::Jobs;
use crate::replies::job_version;
use events_and_replies::Reply;
use hmr_types::ModName;
use module_graph::copy_name;
use std::alloc::AllocError;

/// Adds the job of a text, where the core's reply to its edit gave it a version; else the jobs stay as they
/// are. [`AllocError`] comes where memory runs out. It takes time in the logarithm of the jobs, and for a
/// copy of the name.
pub fn issue(
    jobs: &mut Jobs,
    reply: &Reply,
    name: &ModName,
    text: Vec<u8>,
) -> Result<(), AllocError>
    ensures { (answer : EditAnswer) → answer_in reply.now ≡ Some answer → AreBelow answer jobs.old
        → OnOk result (jobs.new ≡ with_job name.now (Some text.items) answer jobs.old) }
{
    match job_version(reply) {
        Some(version) => jobs.add(version, copy_name(name)?, text),
        None => Ok(()),
    }
}
