// What a callback on dependencies gets for a name that it lists: the live module of the name, or that of an
// event that was fired under it.
ghost use Rattle.std.specs.Prelude.{◌≡◌, Some, map, IfOk};
ghost use Rattle.core_model.specs.Names.{has};
ghost use Rattle.client_model.specs.Firing.{event_module};
ghost use Rattle.module_language.specs.ModuleLanguage.{argument_of};
ghost use Rattle.page_runs.specs.Telling.{given_at, module_given};

use crate::own::argument;
use hmr_types::{ModName, Name, Sequence, Slot, Value};
use module_semantics::ModParam;
use page_state::Page;
use std::alloc::{AllocError, Global};

/// What a callback gets for a name that it lists.
#[derive(Drop)]
pub enum Given {
    /// The live module of the name.
    Live,
    /// A module whose one export `data` is this value.
    Event(Value),
}

/// Whether the modules that a callback lists have this name among them.
pub(crate) fn lists(deps: &[ModName], name: &ModName) -> bool
    ensures { result ≡ has deps.now name.now }
{
    for dep in deps {
        if *dep == *name {
            return true;
        }
    }
    false
}

/// The module that a callback gets for an event.
fn event_module(alloc: Global, value: &Value) -> Result<ModParam, AllocError>
    ensures { IfOk result (λ m. m ≡ argument_of (Some (event_module value.now))) }
{
    let mut slots = Vec::new(alloc);
    let data = Name::from_string(String::from_str(alloc, "data")?);
    slots.push((data, Slot::Val(value.clone()?)))?;
    Ok(ModParam::Mod(Sequence::from_vec(slots)))
}

/// What a callback gets for this name.
fn argument_given<F>(
    page: &Page<F>,
    alloc: Global,
    name: &ModName,
    given: &Given,
) -> Result<ModParam, AllocError>
    ensures { IfOk result (λ m. m ≡ argument_of (module_given page.now name.now given.now)) }
{
    match given {
        Given::Live => argument(page, alloc, name),
        Given::Event(value) => event_module(alloc, value),
    }
}

/// The arguments of a callback that lists these: what is given for the name at its places, and
/// `undefined` elsewhere.
pub(crate) fn arguments_given<F>(
    page: &Page<F>,
    alloc: Global,
    name: &ModName,
    given: &Given,
    deps: &[ModName],
) -> Result<Vec<ModParam>, AllocError>
    ensures { IfOk result (λ ms. ms.items
        ≡ map argument_of (given_at name.now (module_given page.now name.now given.now) deps.now)) }
{
    let mut mods = Vec::new(alloc);
    for dep in deps {
        if *dep == *name {
            mods.push(argument_given(page, alloc, name, given)?)?;
        } else {
            mods.push(ModParam::Undef)?;
        }
    }
    Ok(mods)
}
