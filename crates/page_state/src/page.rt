// The instances of a page, the data of their names, and what else their handlers leave for later.
ghost use Rattle.std.specs.Prelude.{◌≡◌, []};

use crate::live::LiveNumbers;
use handler_table::Shelf;
use hmr_types::{ClientId, ModName, Text, Ver};
use page_instances::Instance;
use retained_data::Bags;
use std::alloc::Global;

/// A callback of this module, at this live version, invalidated it. The version is 0 where the module had
/// no live instance.
#[derive(Drop)]
pub struct Invalidation {
    pub name: ModName,
    pub version: Ver,
    pub message: Text,
}

/// The instances of a page. It has to be ended by `discard`.
pub struct Page<F> {
    /// The number of the client, 0 before it was given one.
    pub client: ClientId,
    /// Every instance that was made, by number: that of number k is at place k - 1.
    pub instances: Vec<Instance<F>>,
    /// The live ones, by name.
    pub live: LiveNumbers,
    /// The data of the names.
    pub bags: Bags,
    /// Invalidations that weren't sent yet, in order.
    pub unsent: Vec<Invalidation>,
    /// The closures of the embedding program that no module took yet.
    pub shelf: Shelf<F>,
}

impl<F> Page<F> {
    /// A page without instances, of a client that has no number yet.
    pub fn new(alloc: Global, shelf: Shelf<F>) -> Self
        ensures client { result.client ≡ 0 }
        ensures instances { result.instances.items ≡ [] }
        ensures live { result.live ≡ [] }
        ensures bags { result.bags ≡ [] }
        ensures unsent { result.unsent.items ≡ [] }
        ensures shelf { result.shelf ≡ shelf }
    {
        Page {
            client: 0,
            instances: Vec::new(alloc),
            live: LiveNumbers::new(alloc),
            bags: Bags::new(alloc),
            unsent: Vec::new(alloc),
            shelf,
        }
    }
}

impl<F: Drop> Page<F> {
    /// Gives the page up, and discards the handlers and closures that are left.
    pub fn discard(self) {
        let Page {
            client: _,
            instances,
            live: _,
            bags: _,
            unsent: _,
            shelf,
        } = self;
        let mut instances = instances;
        while let Some(instance) = instances.pop() {
            instance.discard();
        }
        instances.destroy_empty();
        shelf.end();
    }
}
