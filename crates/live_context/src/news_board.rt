// What there is to tell, on its way from the threads that know it to the one that tells it.
use live_lines::News;
use std::alloc::{AllocError, Global};
use std::collections::VecDeque;
use std::sync::{Arc, Mutex, Wait};

/// The most news that are kept. Those that come when there are as many are let go.
const MOST_NEWS: usize = 65_536;

/// A list of news that threads share by reference.
#[derive(Drop)]
pub struct NewsBoard {
    news: Mutex<VecDeque<News>>,
}

impl NewsBoard {
    /// An empty list, which threads share. `AllocError` where memory ran out.
    pub fn new(alloc: Global) -> Result<Arc<NewsBoard, Global>, AllocError> {
        Ok(Arc::new(
            alloc,
            NewsBoard {
                news: Mutex::new(VecDeque::new(alloc)),
            },
        )?)
    }

    /// Puts news behind the others. They are let go where memory runs out, and where 65,536 are kept. It
    /// waits for the list.
    pub fn tell<R: Wait>(&self, rt: &R, news: News) {
        let mut list = self.news.lock(rt);
        if list.len() < MOST_NEWS {
            let _ = list.push_back(news);
        }
    }

    /// The first of the news, which are then gone from the list; None where it is empty. It waits for the
    /// list.
    pub fn take<R: Wait>(&self, rt: &R) -> Option<News> {
        self.news.lock(rt).pop_front()
    }
}
