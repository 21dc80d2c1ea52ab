// What a site keeps: files by version, the plans that pages told, and counts.
use crate::scanned::ScannedFile;
use file_store::{FileStore, MOST_BYTES, Stored};
use hmr_types::{ModName, Ver};
use instance_urls::PlanId;
use page_texts::ClientTag;
use std::alloc::{AllocError, Global};
use std::collections::BTreeMap;
use std::sync::Arc;
use told_plans::ToldPlan;

/// The most plans that are kept. The oldest goes first.
const MOST_PLANS: usize = 1024;

/// How many plans go at once where files take more memory than they may.
const PLANS_AT_ONCE: usize = 64;

/// What a site keeps.
#[derive(Drop)]
pub(crate) struct SiteState {
    store: FileStore<Arc<ScannedFile, Global>>,
    /// The last file of each name as it was read, good or not.
    read: BTreeMap<ModName, Arc<ScannedFile, Global>>,
    /// How many bytes of files were kept since all files were last seen to have at most half of what they
    /// may.
    unmeasured: usize,
    /// How many plans are kept.
    plans: usize,
    /// How often a page was sent.
    pages: u64,
    /// The largest number up to which every edit has its result.
    settled: Ver,
}

/// A file that is served, and of a page the tag of its client.
#[derive(Drop)]
pub(crate) struct Served {
    pub file: Arc<ScannedFile, Global>,
    pub tag: Option<ClientTag>,
}

impl SiteState {
    /// A site of no files.
    pub fn new(alloc: Global) -> SiteState {
        SiteState {
            store: FileStore::new(alloc),
            read: BTreeMap::new(alloc),
            unmeasured: 0,
            plans: 0,
            pages: 0,
            settled: 0,
        }
    }

    /// Keeps the file that a name has by the edit of this number. Where it is good it is served from now on.
    pub fn keep(
        &mut self,
        name: &ModName,
        version: Ver,
        file: Arc<ScannedFile, Global>,
    ) -> Result<(), AllocError> {
        if file.is_good() {
            let stored = Stored {
                name: name.clone()?,
                size: file.text.len(),
                file: Arc::try_clone(&file)?,
            };
            self.unmeasured = self.unmeasured.saturating_add(stored.size);
            self.store.put(version, stored)?;
            if self.may_be_over() {
                self.make_room();
            }
        }
        self.read.insert(name.clone()?, file)?;
        Ok(())
    }

    /// A name has no file any more. Its versions stay for the plans that name them.
    pub fn remove(&mut self, name: &ModName) {
        self.store.remove(name);
        self.read.remove(name);
    }

    /// Each edit up to the one of this number has its result.
    pub fn settle(&mut self, version: Ver) {
        self.settled = self.settled.max(version);
    }

    /// The largest number up to which every edit has its result.
    pub fn settled(&self) -> Ver {
        self.settled
    }

    /// What is served of a name, where `run` is the number of the server's run: a page is another one
    /// each time.
    pub fn serve(&mut self, name: &ModName, run: u64) -> Result<Option<Served>, AllocError> {
        let Some(version) = self.store.served(name) else {
            return Ok(None);
        };
        let Some(file) = self.file_at(name, version)? else {
            return Ok(None);
        };
        let tag = if file.is_page() {
            Some(self.next_tag(run))
        } else {
            None
        };
        Ok(Some(Served { file, tag }))
    }

    fn next_tag(&mut self, run: u64) -> ClientTag {
        self.pages = self.pages.saturating_add(1);
        ClientTag {
            page: self.pages,
            run,
            count: self.settled,
        }
    }

    /// The file of a name at a version; None where it isn't kept.
    pub fn file_at(
        &self,
        name: &ModName,
        version: Ver,
    ) -> Result<Option<Arc<ScannedFile, Global>>, AllocError> {
        match self.store.get(name, version) {
            Some(file) => Ok(Some(Arc::try_clone(file)?)),
            None => Ok(None),
        }
    }

    /// The last file of a name as it was read, good or not; None where it has none.
    pub fn last_read(
        &self,
        name: &ModName,
    ) -> Result<Option<Arc<ScannedFile, Global>>, AllocError> {
        match self.read.get(name) {
            Some(file) => Ok(Some(Arc::try_clone(file)?)),
            None => Ok(None),
        }
    }

    /// Keeps a plan that a page told.
    pub fn keep_plan(&mut self, plan: ToldPlan) -> Result<(), AllocError> {
        if self.plans >= MOST_PLANS {
            self.let_go_plan();
        }
        self.store.keep_for(plan)?;
        self.plans = self.plans.saturating_add(1);
        Ok(())
    }

    /// The plan of this number; None where it isn't kept.
    pub fn plan(&self, id: PlanId) -> Option<&ToldPlan> {
        self.store.plan(id)
    }

    // Whether files may take more memory than they may. They are measured only where that could be.
    fn may_be_over(&mut self) -> bool {
        if self.unmeasured <= MOST_BYTES / 2 {
            return false;
        }
        if self.store.is_over(MOST_BYTES / 2) {
            return true;
        }
        self.unmeasured = 0;
        false
    }

    // Where files take more memory than they may, lets go those that aren't needed, and then the oldest
    // plans.
    fn make_room(&mut self) {
        if !self.store.is_over(MOST_BYTES) {
            return;
        }
        self.store.sweep();
        for _ in 0..MOST_PLANS / PLANS_AT_ONCE {
            if self.plans == 0 || !self.store.is_over(MOST_BYTES) {
                return;
            }
            for _ in 0..PLANS_AT_ONCE {
                self.let_go_plan();
            }
            self.store.sweep();
        }
    }

    fn let_go_plan(&mut self) {
        if self.store.let_go_oldest().is_some() {
            self.plans = self.plans.saturating_sub(1);
        }
    }
}
