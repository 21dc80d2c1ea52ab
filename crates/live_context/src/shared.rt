// What all threads of a live server share.
use crate::bell::Bell;
use crate::news_board::NewsBoard;
use live_site::Site;
use std::alloc::{AllocError, Global};
use std::sync::Arc;

/// What the files are to the core and by HTTP, the port of this server, the bell that rings for changes, and
/// where news go.
#[derive(Drop)]
pub struct Shared<S: Drop> {
    pub site: Arc<S, Global>,
    pub port: u16,
    pub bell: Arc<Bell, Global>,
    pub news: Arc<NewsBoard, Global>,
}

impl<S: Site + Drop> Shared<S> {
    /// What is shared of this site: a bell that hasn't rung, and no news. `AllocError` where memory ran out.
    pub fn new(alloc: Global, site: S, port: u16) -> Result<Shared<S>, AllocError> {
        Ok(Shared {
            bell: Bell::new(alloc)?,
            news: NewsBoard::new(alloc)?,
            site: Arc::new(alloc, site)?,
            port,
        })
    }
}

impl<S: Drop> Shared<S> {
    /// The same once more. `AllocError` where it is shared as often as can be counted.
    pub fn again(&self) -> Result<Shared<S>, AllocError> {
        Ok(Shared {
            bell: Arc::try_clone(&self.bell)?,
            news: Arc::try_clone(&self.news)?,
            site: Arc::try_clone(&self.site)?,
            port: self.port,
        })
    }
}
