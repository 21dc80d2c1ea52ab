// A handler that was taken off its instance is run, and is used up by that.
ghost use Rattle.std.specs.Prelude.{◌≡◌, ◌++◌, IfOk};
ghost use Rattle.retained_data.specs.Runs.{ran_seen};
ghost use Rattle.handler_table.specs.Handler.{KeepsItsWord, spent};

use const_eval::run_body;
use handler_table::Handler;
use hmr_types::{Name, Slot};
use module_semantics::{Env, ModParam};
use retained_data::{Bag, Ran};
use std::alloc::{AllocError, Global};

/// Runs a handler: code as `run_body` does, over the variables of its own module and the locals of its
/// imports, a closure on the bag alone. It fails only where memory runs out; handler and bag are then gone.
pub fn spend<F: FnOnce(Bag) -> Result<Ran, AllocError> + Drop>(
    alloc: Global,
    handler: Handler<F>,
    own: &[(Name, Slot)],
    imports: &Env,
    mods: &[ModParam],
    bag: Bag,
) -> Result<Ran, AllocError>
    requires callable { (f : F) → F.IsAlwaysCallable f }
    requires word { KeepsItsWord F.post handler }
    ensures { IfOk result (λ ran. ran_seen ran ≡ spent handler (own.now ++ imports.now.vars) mods.now bag) }
{
    match handler {
        Handler::Code(code) => run_body(alloc, &code, own, imports, mods, bag),
        Handler::Host(held) => held.spend(bag),
    }
}
