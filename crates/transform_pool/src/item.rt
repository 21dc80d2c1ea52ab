// What stands in a queue of jobs, and what its passes know.
use crate::TextJob;
use std::collections::LinkedList;

/// A job, or a mark that tells one taker that no more will come.
#[derive(Drop)]
pub enum Item {
    Job(TextJob),
    End,
}

// What a pass knows, as the rule of the queue has it: whether it is the one that puts, whether the queue is
// closed, whether it took an end mark, how many end marks it put and didn't take back, and the jobs that it
// put and those that it took. No value of it is made when the program runs.
pub struct Role {
    pub puts: bool,
    pub closed: bool,
    pub ended: bool,
    pub marks: u64,
    pub put: LinkedList<TextJob>,
    pub took: LinkedList<TextJob>,
}
