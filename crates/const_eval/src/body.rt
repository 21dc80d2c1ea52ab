// The run of a handler's body.
ghost use Rattle.std.specs.Prelude.{◌≡◌, ◌++◌, IfOk, OnOk};
ghost use Rattle.module_tree.specs.Tree.{handler_of};
ghost use Rattle.module_semantics.specs.Bodies.{body_run};
ghost use Rattle.retained_data.specs.Runs.{ran_seen};

use crate::mentions::mentions;
use crate::slots::Slots;
use crate::state::{Context, opening};
use crate::statements::run_stmts;
use crate::stop::fault_of;
use hmr_types::{Name, Sequence, Slot};
use module_semantics::{Env, ModParam};
use module_tree::{HandlerCode, Stmt};
use retained_data::{Bag, Ran};
use std::alloc::{AllocError, Global};

/// Runs the body of a callback, where the variables of its own module hold what `own` says and the locals of
/// its imports what `imports` says, with these modules as its parameters and this bag. A name of `own`
/// stands before the same name of `imports`. A parameter past the end of `mods` is `undefined`. It fails
/// only where memory runs out; the bag is then gone. No variable is copied but for a value that the body
/// reads or assigns. It takes time in proportion to the body and to both lists, but for the logarithm of the
/// number of names.
pub fn run_body(
    alloc: Global,
    code: &HandlerCode,
    own: &[(Name, Slot)],
    imports: &Env,
    mods: &[ModParam],
    bag: Bag,
) -> Result<Ran, AllocError>
    ensures { IfOk result
        (λ r. ran_seen r ≡ body_run (handler_of code.now) (own.now ++ imports.now.vars) mods.now bag) }
{
    let none: Vec<(Name, Slot)> = Vec::new(alloc);
    let no_imports = Slots::walked(&none, &none);
    let vars = variables_for(alloc, &code.body, own, imports)?;
    let context = Context {
        vars: &vars,
        imports: &no_imports,
        mods,
    };
    let mut state = opening(alloc, bag);
    let fault = fault_of(run_stmts(alloc, &code.body, &context, &mut state))?;
    Ok(Ran {
        fault,
        lines: Sequence::from_vec(state.lines),
        changes: Sequence::from_vec(state.changes),
        invalidations: Sequence::from_vec(state.invalidations),
        bag: state.bag,
    })
}

/// So many names are looked up sooner by walks than an index is made.
const FEW_NAMES: u64 = 16;

/// The variables of a body, found by an index where it mentions many names.
fn variables_for<'a>(
    alloc: Global,
    body: &[Stmt],
    own: &'a [(Name, Slot)],
    imports: &'a Env,
) -> Result<Slots<'a>, AllocError>
    ensures { IfOk result (λ slots. slots ≡ own.now ++ imports.now.vars) }
{
    if mentions(body) <= FEW_NAMES {
        Ok(Slots::walked(own, imports.vars.as_slice()))
    } else {
        Slots::indexed(alloc, own, imports.vars.as_slice())
    }
}
