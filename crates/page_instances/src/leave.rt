// Handlers are dropped unrun: those that a replaced instance leaves behind, or all of them.
ghost use Rattle.std.specs.Prelude.{◌≡◌, []};
ghost use Rattle.client_model.specs.Applying.{is_left_behind};
ghost use Rattle.client_model.specs.Instance as model;
ghost use Rattle.client_model.specs.Instance.{is_held, with_dropped};
ghost use Rattle.handler_table.specs.Handlers.{KeepTheirWord};
ghost use Rattle.page_instances.specs.Seeing.{Sees};

use crate::instance::Instance;
use crate::marks::{Those, drop_marks};
use handler_table::{Handler, Handlers, tables_keep_their_word};
use retained_data::{Bag, Ran};
use std::alloc::AllocError;

/// Lets a handler go unrun, where there is one.
pub fn discard_one<F: Drop>(handler: Option<Handler<F>>) {
    if let Some(handler) = handler {
        handler.discard();
    }
}

/// The callbacks of a table on the module itself are dropped.
fn drop_own<F: Drop>(held: &mut Handlers<F>)
    ensures { held.new ≡ record held.old { own = [] } }
{
    while let Some(handler) = held.next_own() {
        handler.discard();
    }
}

impl<F: FnOnce(Bag) -> Result<Ran, AllocError> + Drop> Instance<F> {
    /// Drops all handlers but the callbacks on the module itself.
    pub fn drop_left_behind(&mut self)
        ensures sees { (i : model.Instance) → Sees i self.old
            → Sees (record i { handlers = with_dropped is_left_behind i.handlers }) self.new }
        ensures word { KeepTheirWord F.post self.old.held → KeepTheirWord F.post self.new.held }
        ensures rest { self.new ≡ record self.old { marks = self.new.marks; held = self.new.held } }
    {
        tables_keep_their_word::<F>();
        discard_one(self.held.take_dispose());
        discard_one(self.held.take_prune());
        self.held.drop_deps();
        drop_marks(&mut self.marks, Those::ButOwn);
    }

    /// Drops all handlers.
    pub fn drop_held(&mut self)
        ensures sees { (i : model.Instance) → Sees i self.old
            → Sees (record i { handlers = with_dropped is_held i.handlers }) self.new }
        ensures word { KeepTheirWord F.post self.old.held → KeepTheirWord F.post self.new.held }
        ensures rest { self.new ≡ record self.old { marks = self.new.marks; held = self.new.held } }
    {
        tables_keep_their_word::<F>();
        discard_one(self.held.take_dispose());
        discard_one(self.held.take_prune());
        drop_own(&mut self.held);
        self.held.drop_deps();
        drop_marks(&mut self.marks, Those::All);
    }
}
