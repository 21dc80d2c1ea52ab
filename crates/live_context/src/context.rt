// What stays as it is while a live server runs.
use crate::shared::Shared;
use hmr_hub::Hub;
use live_lines::News;
use std::alloc::Global;
use std::sync::{Arc, Wait};
use transform_pool::JobQueue;

/// The handle of a live server and where it takes memory, its hub, the queue of the workers' jobs, and what
/// all its threads share.
#[derive(Drop)]
pub struct Context<R, S: Drop> {
    pub rt: R,
    pub alloc: Global,
    pub hub: Arc<Hub, Global>,
    pub queue: Arc<JobQueue, Global>,
    pub shared: Shared<S>,
}

impl<R: Wait, S: Drop> Context<R, S> {
    /// Puts news behind those that the terminal is to be told. They are lost where memory runs out. It waits.
    pub fn tell(&self, news: News) {
        self.shared.news.tell(&self.rt, news);
    }
}
