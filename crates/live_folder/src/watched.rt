// What is looked at again and again.
use crate::Look;
use std::alloc::{AllocError, Global};

/// A folder that is looked at again and again. The first look shows all its modules.
pub trait Watched {
    /// What changed since the last look that was answered. It may wait a moment, until what is being written
    /// is still. `AllocError` where memory ran out: the next look shows the same changes again.
    fn look(&mut self, alloc: Global) -> Result<Look, AllocError>;
}
