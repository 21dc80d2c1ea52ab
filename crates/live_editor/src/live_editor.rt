// The editor of a live server, as a type.
ghost use Rattle.std.specs.Prelude.{◌≡◌, false, true};
ghost use Rattle.std.specs.Arc.{arc_value};
ghost use Rattle.transform_pool.specs.Passes as pool;
ghost use Rattle.hmr_hub.specs.Passes.{IsPassOf, number_of};
ghost use Rattle.hub_editor.specs.Editing.{IsGoing, made_by};

use hmr_hub::{Hub, Pass};
use hub_editor::Editor;
use std::alloc::Global;
use std::sync::Arc;
use transform_pool::{JobPass, JobQueue};

/// An editor of a hub, with the hub's first pass and the pass of a queue that puts. No job was
/// worked at the end yet.
#[derive(Drop)]
pub struct LiveEditor {
    pub(crate) hub: Arc<Hub, Global>,
    pub(crate) queue: Arc<JobQueue, Global>,
    pub(crate) pass: Pass,
    pub(crate) jobs: JobPass,
    pub(crate) editor: Editor,
    ghost of_hub: { IsPassOf (arc_value hub) pass },
    ghost number: { number_of pass ≡ 0 },
    ghost of_queue: { pool.IsPassOf (arc_value queue) jobs },
    ghost puts: { (pool.role_of jobs).puts ≡ true },
    ghost going: { IsGoing (made_by editor) },
    ghost unclosed: { (pool.role_of jobs).closed ≡ false },
}
