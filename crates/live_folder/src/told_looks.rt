// Looks that were made before.
use crate::{Look, Watched};
use std::alloc::{AllocError, Global};
use std::collections::VecDeque;

/// Gives looks in their order, and then such as show no change.
#[derive(Drop)]
pub struct ToldLooks {
    looks: VecDeque<Look>,
}

impl ToldLooks {
    /// These looks.
    pub fn new(looks: VecDeque<Look>) -> ToldLooks {
        ToldLooks { looks }
    }
}

impl Watched for ToldLooks {
    fn look(&mut self, alloc: Global) -> Result<Look, AllocError> {
        match self.looks.pop_front() {
            Some(look) => Ok(look),
            None => Ok(Look::of_nothing(alloc, false)),
        }
    }
}
