// A queue of jobs and its passes, as types.
ghost use Rattle.std.specs.Prelude.{◌≡◌, ◌<◌, [], false};
ghost use Rattle.crossbeam_queue.specs.Passes.{ruled_capacity, view};

use crate::item::{Item, Role};
use crate::rule::QueueRule;
use crossbeam_queue::{Pass, RuledArrayQueue};

pub(crate) type Ring = RuledArrayQueue<Item, Role, QueueRule>;

/// A queue of 64 places for jobs and end marks. Threads share it by reference, and each uses it by a
/// [`JobPass`] of its own.
#[derive(Drop)]
pub struct JobQueue {
    pub(crate) ring: Ring,
    pub(crate) takers: usize,
    ghost places: { ruled_capacity ring ≡ 64 },
    ghost some: { 0 < takers },
}

/// The right to put into a queue, or to take from it until the first end mark. A pass belongs to the queue
/// that it came from.
#[derive(Drop)]
pub struct JobPass {
    pub(crate) seat: Pass<Item, Role>,
    pub(crate) marks: usize,
    ghost idle: { seat.me.1 ≡ [] },
    ghost counted: { marks ≡ (view seat).marks },
    ghost unmarked: { (view seat).closed ≡ false → (view seat).marks ≡ 0 },
}
