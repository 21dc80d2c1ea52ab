// Handlers are registered. A module has one disposer and one prune handler, so a later one displaces an
// earlier one, which is dropped unrun; callbacks stand beside one another, in the order in which they came.
ghost use Rattle.std.specs.Prelude.{◌≡◌, List, false, OnOk};
ghost use Rattle.core_model.specs.Names.{Name};
ghost use Rattle.client_model.specs.Instance as model;
ghost use Rattle.client_model.specs.Instance.{code, is_dep};
ghost use Rattle.handler_table.specs.Handler.{KeepsItsWord};
ghost use Rattle.handler_table.specs.Handlers.{KeepTheirWord};
ghost use Rattle.hmr_types.specs.declared.words.HandlerKind.TheVariants as kind;
ghost use Rattle.module_tree.specs.Tree.{handler_of};
ghost use Rattle.page_instances.specs.Marks.{handled_of};
ghost use Rattle.page_instances.specs.Seeing.{Sees, deed_in};
ghost use Rattle.page_instances.specs.Holding.{with_held};

use crate::instance::Instance;
use crate::leave::discard_one;
use crate::marks::{Mark, Those, add_mark, drop_marks};
use handler_table::{Handler, tables_keep_their_word};
use hmr_types::{HandlerKind, ModName};
use module_tree::HandlerCode;
use output_lines::Handled;
use retained_data::{Bag, Ran};
use std::alloc::AllocError;

impl<F: FnOnce(Bag) -> Result<Ran, AllocError> + Drop> Instance<F> {
    /// Holds a disposer; the one that it displaces is dropped. It fails only where memory runs out; the
    /// handler is then gone.
    pub fn hold_disposer(&mut self, handler: Handler<F>, handled: Handled) -> Result<(), AllocError>
        requires handled { handled ≡ handled_of (deed_in handler) }
        requires word { KeepsItsWord F.post handler }
        ensures sees { (deps : List Name) (i : model.Instance) → Sees i self.old
            → OnOk result (Sees (with_held kind.Dispose deps (deed_in handler) i) self.new) }
        ensures word { KeepTheirWord F.post self.old.held
            → OnOk result (KeepTheirWord F.post self.new.held) }
        ensures rest { OnOk result
            (self.new ≡ record self.old { marks = self.new.marks; held = self.new.held }) }
    {
        tables_keep_their_word::<F>();
        drop_marks(&mut self.marks, Those::Kind(HandlerKind::Dispose));
        if let Err(e) = add_mark(&mut self.marks, HandlerKind::Dispose, handled) {
            handler.discard();
            return Err(e);
        }
        discard_one(self.held.set_dispose(handler));
        Ok(())
    }

    /// Holds a prune handler; the one that it displaces is dropped. It fails only where memory runs out;
    /// the handler is then gone.
    pub fn hold_prune(&mut self, handler: Handler<F>, handled: Handled) -> Result<(), AllocError>
        requires handled { handled ≡ handled_of (deed_in handler) }
        requires word { KeepsItsWord F.post handler }
        ensures sees { (deps : List Name) (i : model.Instance) → Sees i self.old
            → OnOk result (Sees (with_held kind.Prune deps (deed_in handler) i) self.new) }
        ensures word { KeepTheirWord F.post self.old.held
            → OnOk result (KeepTheirWord F.post self.new.held) }
        ensures rest { OnOk result
            (self.new ≡ record self.old { marks = self.new.marks; held = self.new.held }) }
    {
        tables_keep_their_word::<F>();
        drop_marks(&mut self.marks, Those::Kind(HandlerKind::Prune));
        if let Err(e) = add_mark(&mut self.marks, HandlerKind::Prune, handled) {
            handler.discard();
            return Err(e);
        }
        discard_one(self.held.set_prune(handler));
        Ok(())
    }

    /// Holds one more callback on the module itself. It fails only where memory runs out; the handler is
    /// then gone.
    pub fn add_own(&mut self, handler: Handler<F>, handled: Handled) -> Result<(), AllocError>
        requires handled { handled ≡ handled_of (deed_in handler) }
        requires word { KeepsItsWord F.post handler }
        ensures sees { (deps : List Name) (i : model.Instance) → Sees i self.old
            → OnOk result (Sees (with_held kind.Own deps (deed_in handler) i) self.new) }
        ensures word { KeepTheirWord F.post self.old.held
            → OnOk result (KeepTheirWord F.post self.new.held) }
        ensures rest { OnOk result
            (self.new ≡ record self.old { marks = self.new.marks; held = self.new.held }) }
    {
        tables_keep_their_word::<F>();
        if let Err(e) = add_mark(&mut self.marks, HandlerKind::Own, handled) {
            handler.discard();
            return Err(e);
        }
        if let Err(handler) = self.held.add_own(handler) {
            handler.discard();
            return Err(AllocError);
        }
        Ok(())
    }

    /// Holds a handler of this kind, as the method of the kind does. It fails only where memory runs out;
    /// the handler is then gone.
    pub fn hold(
        &mut self,
        kind: HandlerKind,
        handler: Handler<F>,
        handled: Handled,
    ) -> Result<(), AllocError>
        requires kind { is_dep kind ≡ false }
        requires handled { handled ≡ handled_of (deed_in handler) }
        requires word { KeepsItsWord F.post handler }
        ensures sees { (deps : List Name) (i : model.Instance) → Sees i self.old
            → OnOk result (Sees (with_held kind deps (deed_in handler) i) self.new) }
        ensures word { KeepTheirWord F.post self.old.held
            → OnOk result (KeepTheirWord F.post self.new.held) }
        ensures rest { OnOk result
            (self.new ≡ record self.old { marks = self.new.marks; held = self.new.held }) }
    {
        match kind {
            HandlerKind::Dispose => self.hold_disposer(handler, handled),
            HandlerKind::Prune => self.hold_prune(handler, handled),
            HandlerKind::Own => self.add_own(handler, handled),
            HandlerKind::Dep => unreachable!(),
        }
    }

    /// Holds one more callback on these dependencies. It fails only where memory runs out; the callback is
    /// then gone.
    pub fn add_dep(&mut self, deps: Vec<ModName>, what: HandlerCode) -> Result<(), AllocError>
        ensures sees { (i : model.Instance) → Sees i self.old
            → OnOk result (Sees (with_held kind.Dep deps.items (code (handler_of what)) i) self.new) }
        ensures word { KeepTheirWord F.post self.old.held
            → OnOk result (KeepTheirWord F.post self.new.held) }
        ensures rest { OnOk result
            (self.new ≡ record self.old { marks = self.new.marks; held = self.new.held }) }
    {
        tables_keep_their_word::<F>();
        add_mark(&mut self.marks, HandlerKind::Dep, Handled::Code)?;
        self.held.add_dep(deps, what)?;
        Ok(())
    }
}
