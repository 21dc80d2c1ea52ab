// A hub and its passes, as types.
use crate::question::Question;
use crate::recorded_core::RecordedCore;
use server_core::NewFault;
use turn_lock::TurnLock;

/// A core that threads share by reference. Each calls it by a [`Pass`] of its own.
#[derive(Drop)]
pub struct Hub {
    pub(crate) lock: TurnLock<RecordedCore>,
}

/// What one caller of a hub has seen of its transcript, under a number of its own. A pass belongs to the hub
/// that it came from.
#[derive(Drop)]
pub struct Pass {
    pub(crate) pass: turn_lock::Pass<RecordedCore, Question>,
}

/// Why there is no hub of these roots.
#[derive(Clone, Copy, Debug, PartialEq, Eq)]
pub enum HubFault {
    /// They are no roots of a page.
    Roots(NewFault),
    /// There is no memory for the lock.
    NoMemory,
}
