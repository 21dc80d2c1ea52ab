// A handler is taken off an instance to be run. It counts as run from then on, whatever its run comes to.
ghost use Rattle.std.specs.Prelude.{◌≡◌, None, IfSome, IfNone, drop, slice_get};
ghost use Rattle.client_model.specs.Instance as model;
ghost use Rattle.client_model.specs.Instance.{disposes, prunes, accepts_own};
ghost use Rattle.handler_table.specs.Handler.{KeepsItsWord};
ghost use Rattle.handler_table.specs.Handlers.{KeepTheirWord};
ghost use Rattle.page_instances.specs.Seeing.{Sees};
ghost use Rattle.page_instances.specs.Taking.{TakenOff, Lacks};

use crate::instance::Instance;
use crate::marks::spend_mark;
use handler_table::{Handler, tables_keep_their_word};
use hmr_types::HandlerKind;
use retained_data::{Bag, Ran};
use std::alloc::AllocError;

impl<F: FnOnce(Bag) -> Result<Ran, AllocError> + Drop> Instance<F> {
    /// Hands out the disposer; then none is held.
    pub fn take_disposer(&mut self) -> Option<Handler<F>>
        ensures some { IfSome result
            (λ h. (i : model.Instance) → Sees i self.old → TakenOff disposes h i self.new) }
        ensures none { IfNone result ((i : model.Instance) → Sees i self.old → Lacks disposes i self.new) }
        ensures word { KeepTheirWord F.post self.old.held → IfSome result (KeepsItsWord F.post) }
        ensures left { KeepTheirWord F.post self.old.held → KeepTheirWord F.post self.new.held }
        ensures rest { self.new ≡ record self.old { marks = self.new.marks; held = self.new.held } }
        ensures empty { self.new.held.dispose ≡ None }
    {
        tables_keep_their_word::<F>();
        match self.held.take_dispose() {
            Some(handler) => {
                spend_mark(&mut self.marks, HandlerKind::Dispose);
                Some(handler)
            }
            None => None,
        }
    }

    /// Hands out the prune handler; then none is held.
    pub fn take_prune(&mut self) -> Option<Handler<F>>
        ensures some { IfSome result
            (λ h. (i : model.Instance) → Sees i self.old → TakenOff prunes h i self.new) }
        ensures none { IfNone result ((i : model.Instance) → Sees i self.old → Lacks prunes i self.new) }
        ensures word { KeepTheirWord F.post self.old.held → IfSome result (KeepsItsWord F.post) }
        ensures left { KeepTheirWord F.post self.old.held → KeepTheirWord F.post self.new.held }
        ensures rest { self.new ≡ record self.old { marks = self.new.marks; held = self.new.held } }
        ensures empty { self.new.held.prune ≡ None }
    {
        tables_keep_their_word::<F>();
        match self.held.take_prune() {
            Some(handler) => {
                spend_mark(&mut self.marks, HandlerKind::Prune);
                Some(handler)
            }
            None => None,
        }
    }

    /// Hands out the earliest callback on the module itself: None exactly where none is held.
    pub fn take_own(&mut self) -> Option<Handler<F>>
        ensures some { IfSome result
            (λ h. (i : model.Instance) → Sees i self.old → TakenOff accepts_own h i self.new) }
        ensures none { IfNone result
            ((i : model.Instance) → Sees i self.old → Lacks accepts_own i self.new) }
        ensures word { KeepTheirWord F.post self.old.held → IfSome result (KeepsItsWord F.post) }
        ensures left { KeepTheirWord F.post self.old.held → KeepTheirWord F.post self.new.held }
        ensures earliest { result ≡ slice_get self.old.held.own 0 }
        ensures fewer { self.new.held.own ≡ drop 1 self.old.held.own }
        ensures rest { self.new ≡ record self.old { marks = self.new.marks; held = self.new.held } }
    {
        tables_keep_their_word::<F>();
        match self.held.next_own() {
            Some(handler) => {
                spend_mark(&mut self.marks, HandlerKind::Own);
                Some(handler)
            }
            None => None,
        }
    }
}
