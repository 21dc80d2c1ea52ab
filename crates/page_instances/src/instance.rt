// What is kept of one instance, from its making to the end of the client. Its number isn't kept: it is its
// place, from 1. Its text isn't kept either, but what the imports of the text bind.
ghost use Rattle.std.specs.Prelude.{◌≡◌, [], None, map};
ghost use Rattle.client_model.specs.Instance as model;
ghost use Rattle.client_model.specs.Making.{Birth, born};
ghost use Rattle.module_language.specs.ModuleLanguage.{module_language};
ghost use Rattle.page_instances.specs.Seeing.{Sees, binding_of};

use crate::marks::Mark;
use handler_table::Handlers;
use hmr_types::{ModName, Name, Sequence, Slot, Ver};
use output_lines::{InstanceFate, InstanceStatus};
use std::alloc::Global;

/// A name that a module imports: the local name stands for this export of this dependency.
#[derive(Drop)]
pub struct Bound {
    pub dependency: ModName,
    pub exported: Name,
    pub local: Name,
}

/// An instance of a module. Its number is its place, from 1. It has to be ended by `discard`.
pub struct Instance<F> {
    pub name: ModName,
    pub version: Ver,
    /// The names that the module exports.
    pub exports: Sequence<Name>,
    /// Each import, with the number of the instance that it is linked to.
    pub links: Sequence<(ModName, u32)>,
    /// What the imports of its text bind, in the text's order.
    pub bindings: Sequence<Bound>,
    pub status: InstanceStatus,
    pub fate: InstanceFate,
    /// The variables of the module, with what they hold.
    pub values: Vec<(Name, Slot)>,
    /// Every handler that was registered, in order, each with what became of it.
    pub marks: Vec<Mark>,
    /// Those of the handlers that are held.
    pub held: Handlers<F>,
}

impl<F> Instance<F> {
    /// A live instance with these variables, and without handlers.
    pub fn new(
        alloc: Global,
        name: ModName,
        version: Ver,
        exports: Sequence<Name>,
        links: Sequence<(ModName, u32)>,
        bindings: Sequence<Bound>,
        status: InstanceStatus,
        values: Vec<(Name, Slot)>,
    ) -> Self
        ensures sees { (b : Birth) → b.name ≡ name → b.entry.version ≡ version
            → b.entry.analysis.exports ≡ exports
            → b.links ≡ links → module_language.bindings b.name b.text ≡ map binding_of bindings
            → Sees (born b status values.items []) result }
        ensures name { result.name ≡ name }
        ensures held { result.held ≡ record { dispose = None; prune = None; own = []; deps = [] } }
    {
        Instance {
            name,
            version,
            exports,
            links,
            bindings,
            status,
            fate: InstanceFate::Live,
            values,
            marks: Vec::new(alloc),
            held: Handlers::new(alloc),
        }
    }

    /// Gives it its fate.
    pub fn end(&mut self, fate: InstanceFate)
        ensures sees { (i : model.Instance) → Sees i self.old → Sees (record i { fate = fate }) self.new }
        ensures rest { self.new ≡ record self.old { fate = fate } }
    {
        self.fate = fate;
    }
}

impl<F: Drop> Instance<F> {
    /// Gives the instance up and discards the handlers that are left.
    pub fn discard(self) {
        let Instance {
            name: _,
            version: _,
            exports: _,
            links: _,
            bindings: _,
            status: _,
            fate: _,
            values: _,
            marks: _,
            held,
        } = self;
        held.end();
    }
}
