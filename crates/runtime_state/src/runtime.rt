// What a client keeps. The page's instances, data and closures are kept by `page_state`; here stand its
// modules and the plan under way.
ghost use Rattle.std.specs.Prelude.{◌≡◌, [], false, OnOk};
ghost use Rattle.std.specs.List.{All};
ghost use Rattle.handler_table.specs.Held.{IsHost};
ghost use Rattle.handler_table.specs.Shelf.{marks_of};
ghost use Rattle.update_msgs.specs.Writable.{IsFormat};
ghost use Rattle.client_model.specs.Past.{Past, runtime_after};
ghost use Rattle.client_model.specs.Printing.{is_at_rest};
ghost use Rattle.client_model.specs.Runtime.{Opening};
ghost use Rattle.module_language.specs.ModuleLanguage.{module_language};
ghost use Rattle.runtime_state.specs.Standing.{KeepsWords, StandsFor};

use client_plan::UnderWay;
use handler_table::Shelf;
use hmr_types::{ClientId, ModName, Sequence};
use module_graph::View;
use page_state::Page;
use retained_data::{Bag, Ran};
use std::alloc::{AllocError, Global};

/// A client's runtime. That it stands for the messages and events that it took so far is the relation
/// `StandsFor`. It may be given up at any moment; then every handler that it holds is discarded.
pub struct HotRuntime<F> {
    alloc: Global,
    /// The format that it speaks, 1 or 2.
    pub format: u8,
    /// The roots that it names in its first request.
    pub named: Sequence<ModName>,
    /// The roots that the server gave.
    pub roots: Sequence<ModName>,
    /// Whether the page is loaded.
    pub loaded: bool,
    /// The modules of the page.
    pub view: View,
    /// That the view's modules are exactly those that the roots reach; it may be false where they are.
    pub whole: bool,
    /// The modules that count as changed, rising.
    pub forced: Vec<ModName>,
    /// The plan under way, where there is one.
    pub plan: Option<UnderWay>,
    /// The instances of the page, and what else their handlers leave for later.
    pub page: Page<F>,
    /// Whether it is stopped.
    pub stopped: bool,
}

impl<F: FnOnce(Bag) -> Result<Ran, AllocError> + Drop> HotRuntime<F> {
    /// A runtime that took no message yet: with these closures of the embedding program, these roots of
    /// its page, where with none the page has the server's, and a format, 1 or 2.
    pub fn new(alloc: Global, shelf: Shelf<F>, roots: Vec<ModName>, format: u8) -> HotRuntime<F>
        requires format { IsFormat format }
        requires hosts { All (IsHost F.post) shelf }
        ensures stands { StandsFor
            (record { shelf = marks_of shelf; roots = roots.items; format = format }) [] result }
        ensures words { KeepsWords F.post result }
        ensures running { result.stopped ≡ false }
        ensures format { result.format ≡ format }
    {
        HotRuntime {
            alloc,
            format,
            named: Sequence::from_vec(roots),
            roots: Sequence::new(alloc),
            loaded: false,
            view: View::new(alloc),
            whole: false,
            forced: Vec::new(alloc),
            plan: None,
            page: Page::new(alloc, shelf),
            stopped: false,
        }
    }
}

impl<F> HotRuntime<F> {
    /// The allocator.
    pub fn allocator(&self) -> Global {
        self.alloc
    }

    /// The number that the last `connected` gave, 0 before any.
    pub fn client(&self) -> ClientId
        ensures { (opening : Opening) (past : Past) → StandsFor opening past self.now
            → result ≡ (runtime_after module_language opening past).client }
    {
        self.page.client
    }

    /// The format that the runtime speaks, 1 or 2.
    pub fn format(&self) -> u8
        ensures { result ≡ self.now.format }
    {
        self.format
    }

    /// Whether the runtime has nothing under way and nothing to tell.
    pub fn at_rest(&self) -> bool
        ensures { (opening : Opening) (past : Past) → StandsFor opening past self.now
            → result ≡ is_at_rest (runtime_after module_language opening past) }
    {
        self.loaded && self.plan.is_none() && self.page.unsent.is_empty() && !self.stopped
    }
}

impl<F: Drop> HotRuntime<F> {
    /// Gives the runtime up, and discards the handlers and closures that are left.
    pub fn end(self) {
        drop(self);
    }
}

impl<F: Drop> Drop for HotRuntime<F> {
    fn drop(self) {
        let HotRuntime {
            alloc: _,
            format: _,
            named: _,
            roots: _,
            loaded: _,
            view: _,
            whole: _,
            forced: _,
            plan: _,
            page,
            stopped: _,
        } = self;
        page.discard();
    }
}
