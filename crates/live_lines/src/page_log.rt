// What is known of one page: the instances that are live on it, and the plan that is under way.
ghost use Rattle.std.specs.Prelude.{◌≡◌, IfOk, OnErr};
ghost use Rattle.live_lines.specs.Answering.{answered, blank};
ghost use Rattle.live_lines.specs.Pages.{Page, stale_of};

use crate::exchanges::answered;
use crate::instance::{Begun, Fetched, Instance};
use crate::stale::stale_in;
use crate::{Asked, ImportedName, PageNews, StaleBinding};
use hmr_types::{ClientId, ModName};
use std::alloc::{AllocError, Global};
use std::collections::BTreeMap;
use std::marker::Model;
use update_msgs::ServerMsg;

/// What is known of one page from its exchanges with the server: the live instance of each module with its
/// version and with what it imports, and the plan that is under way.
///
/// An instance is bound to what is live once the plan that made it was applied. So a binding is stale where
/// a later plan made the live instance of the module that it is bound to.
#[derive(Drop)]
pub struct PageLog {
    pub(crate) client: ClientId,
    pub(crate) made: u64,
    pub(crate) modules: BTreeMap<ModName, Instance>,
    pub(crate) staged: BTreeMap<ModName, Fetched>,
    pub(crate) under: Option<Begun>,
}

impl Model for PageLog {
    ghost use Rattle.std.specs.Prelude.{map};
    ghost use Rattle.live_lines.specs.Pages.{Page};

    ghost Value = { Page };

    ghost view = { λ l. record {
      client = l.client;
      made = l.made;
      modules = l.modules.entries;
      staged = l.staged.entries;
      under = l.under;
    } };
}

impl PageLog {
    /// Of a page whose first message hasn't been answered.
    pub fn new(alloc: Global) -> PageLog
        ensures { result ≡ blank 0 }
    {
        PageLog {
            client: 0,
            made: 0,
            modules: BTreeMap::new(alloc),
            staged: BTreeMap::new(alloc),
            under: None,
        }
    }

    /// The number of the page, 0 before it has one.
    pub fn client(&self) -> ClientId
        ensures { result ≡ self.now.client }
    {
        self.client
    }

    /// Takes one exchange, what the page asked and what it was answered, and gives what there is to tell of
    /// it. `names` is what a text imports that the answer brings, in the order of the text; it isn't looked
    /// at with another answer. Where memory runs out nothing is known of the page any more but its number,
    /// and so no binding is told to be stale that isn't, until the page is loaded again. It takes time in
    /// proportion to the answer; where a plan was applied, to what was fetched for it, and for an update to
    /// what the modules of the page import, each with the logarithm of their number.
    pub fn answered(
        &mut self,
        alloc: Global,
        asked: Asked,
        answer: &ServerMsg,
        names: Vec<ImportedName>,
    ) -> Result<Option<PageNews>, AllocError>
        ensures told { IfOk result
            (λ news. (self.new, news) ≡ answered asked answer.now names.items self.old) }
        ensures lost { OnErr result (self.new ≡ blank self.old.client) }
    {
        let client = self.client;
        match answered(self, alloc, asked, answer, names) {
            Ok(news) => Ok(news),
            Err(refused) => {
                self.forget(alloc, client);
                Err(refused)
            }
        }
    }

    // Forgets all but the number.
    pub(crate) fn forget(&mut self, alloc: Global, client: ClientId)
        ensures { self.new ≡ blank client }
    {
        *self = PageLog::new(alloc);
        self.client = client;
    }

    /// All stale bindings of the page, by importer, and of one importer in the order of its text. It takes
    /// time in proportion to what the modules of the page import, each with the logarithm of their number.
    pub fn stale(&self, alloc: Global) -> Result<Vec<StaleBinding>, AllocError>
        ensures { IfOk result (λ bindings. bindings.items ≡ stale_of self.now.modules) }
    {
        stale_in(alloc, &self.modules)
    }
}
