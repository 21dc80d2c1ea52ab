// The handlers of one instance. There is at most one disposer and one prune handler; callbacks stand in
// the order in which they registered.
ghost use Rattle.std.specs.Prelude.{◌≡◌, ◌++◌, ◌∷◌, []};
ghost use Rattle.std.specs.Prelude.{IfErr, OnOk, OnErr, None, Some, drop, length, slice_get};
ghost use Rattle.std.specs.Option.{option_map};

use crate::dep::Dep;
use crate::handler::Handler;
use hmr_types::{ModName, Sequence};
use module_tree::HandlerCode;
use std::alloc::{AllocError, Global};
use std::collections::VecDeque;
use std::marker::Model;

/// The handlers that one instance holds. It has to be ended by `end`.
pub struct Handlers<F> {
    dispose: Option<Handler<F>>,
    prune: Option<Handler<F>>,
    own: VecDeque<Handler<F>>,
    deps: Vec<Dep>,
}

impl<F> Model for Handlers<F> {
    ghost use Rattle.std.specs.Coded.{codes};
    ghost use Rattle.module_tree.specs.contracts.tree.Stmt as stmt;
    ghost use Rattle.handler_table.specs.Handlers.{Holdings};

    ghost Value = { Holdings F };

    ghost coded = { Prim.hlevel (codes, stmt.the_row.coded) };

    ghost view = { λ t.
        record { dispose = t.dispose; prune = t.prune; own = t.own.items; deps = t.deps.items } };
}

impl<F> Handlers<F> {
    /// No handlers.
    pub fn new(alloc: Global) -> Self
        ensures { result ≡ record { dispose = None; prune = None; own = []; deps = [] } }
    {
        Handlers {
            dispose: None,
            prune: None,
            own: VecDeque::new(alloc),
            deps: Vec::new(alloc),
        }
    }

    /// Holds this disposer, and hands back the one that it displaces.
    pub fn set_dispose(&mut self, handler: Handler<F>) -> Option<Handler<F>>
        ensures displaced { result ≡ self.old.dispose }
        ensures held { self.new ≡ record self.old { dispose = Some handler } }
    {
        self.dispose.replace(handler)
    }

    /// Holds this prune handler, and hands back the one that it displaces.
    pub fn set_prune(&mut self, handler: Handler<F>) -> Option<Handler<F>>
        ensures displaced { result ≡ self.old.prune }
        ensures held { self.new ≡ record self.old { prune = Some handler } }
    {
        self.prune.replace(handler)
    }

    /// Hands out the disposer; then none is held.
    pub fn take_dispose(&mut self) -> Option<Handler<F>>
        ensures taken { result ≡ self.old.dispose }
        ensures left { self.new ≡ record self.old { dispose = None } }
    {
        self.dispose.take()
    }

    /// Hands out the prune handler; then none is held.
    pub fn take_prune(&mut self) -> Option<Handler<F>>
        ensures taken { result ≡ self.old.prune }
        ensures left { self.new ≡ record self.old { prune = None } }
    {
        self.prune.take()
    }

    /// Adds a callback on the module itself behind the others. It fails only where memory runs out; it
    /// then hands the callback back, and the table is as before.
    pub fn add_own(&mut self, handler: Handler<F>) -> Result<(), Handler<F>>
        ensures ok { OnOk result (self.new ≡ record self.old { own = self.old.own ++ handler ∷ [] }) }
        ensures err { OnErr result (self.new ≡ self.old) }
        ensures back { IfErr result (λ h. h ≡ handler) }
    {
        match self.own.push_back(handler) {
            Ok(()) => Ok(()),
            Err(full) => Err(full.value),
        }
    }

    /// Hands out the earliest callback on the module itself: None exactly where none is held.
    pub fn next_own(&mut self) -> Option<Handler<F>>
        ensures earliest { result ≡ slice_get self.old.own 0 }
        ensures left { self.new ≡ record self.old { own = drop 1 self.old.own } }
    {
        self.own.pop_front()
    }

    /// Adds a callback on these dependencies behind the others. It fails only where memory runs out;
    /// callback and list are then gone, and the table is as before.
    pub fn add_dep(&mut self, deps: Vec<ModName>, code: HandlerCode) -> Result<(), AllocError>
        ensures ok { OnOk result
            (self.new
            ≡ record self.old { deps = self.old.deps ++ record { deps = deps.items; code = code } ∷ [] }) }
        ensures err { OnErr result (self.new ≡ self.old) }
    {
        let deps = Sequence::from_vec(deps);
        self.deps.push(Dep { deps, code })?;
        Ok(())
    }

    /// The callback on dependencies of this place, from 0, in the order of registration: None exactly
    /// past the end.
    pub fn dep(&self, place: usize) -> Option<&Dep>
        ensures { option_map (λ d. d.now) result ≡ slice_get self.now.deps place }
    {
        self.deps.get(place)
    }

    /// How many callbacks on dependencies are held.
    pub fn dep_count(&self) -> usize
        ensures { result ≡ length self.now.deps }
    {
        self.deps.len()
    }

    /// Drops the callbacks on dependencies.
    pub fn drop_deps(&mut self)
        ensures { self.new ≡ record self.old { deps = [] } }
    {
        self.deps.clear();
    }
}

impl<F: Drop> Handlers<F> {
    /// Gives the table up and discards all that it holds.
    pub fn end(self) {
        let Handlers {
            dispose,
            prune,
            own,
            deps: _,
        } = self;
        discard_one(dispose);
        discard_one(prune);
        discard_all(own);
    }
}

fn discard_one<F: Drop>(handler: Option<Handler<F>>) {
    if let Some(handler) = handler {
        handler.discard();
    }
}

fn discard_all<F: Drop>(handlers: VecDeque<Handler<F>>) {
    let mut handlers = handlers;
    while let Some(handler) = handlers.pop_front() {
        handler.discard();
    }
    handlers.destroy_empty();
}
