// How the boundaries of an update are told of the modules that got a new instance. It is found before the old
// instances end, since a callback on the module itself is that of the old instance.
ghost use Rattle.std.specs.Prelude.{◌≡◌, ◌<◌, ℕ, suc, Some, None, IfSome, IfOk, length};
ghost use Rattle.std.specs.List.{All};
ghost use Rattle.std.specs.Option.{option_map};
ghost use Rattle.core_model.specs.Names.{has};
ghost use Rattle.core_model.specs.Page.{Plan};
ghost use Rattle.client_model.specs.Applying.{tell_boundary};
ghost use Rattle.client_model.specs.Instance.{live_at};
ghost use Rattle.client_model.specs.Linking.{new_names, number_in};
ghost use Rattle.client_model.specs.Runtime.{Runtime, for_each};
ghost use Rattle.module_language.specs.ModuleLanguage.{module_language};
ghost use Rattle.page_instances.specs.Scopes.{kept_at};
ghost use Rattle.page_state.specs.Standing.{StandsFor};
ghost use Rattle.page_ends.specs.Tellings.{IsAsKnown, is_within, told, told_by};

use crate::tell::{Telling, Told};
use hmr_types::ModName;
use page_plan::{NameSet, Numbers};
use page_state::Page;
use std::alloc::{AllocError, Global};

/// The place of the instance of this number, where there is one.
fn place_of<F>(page: &Page<F>, number: u32) -> Option<usize>
    ensures within { IfSome result (λ k. k < length page.now.instances.items) }
    ensures some { (k : ℕ) → result ≡ Some k → number ≡ suc k }
    ensures none { result ≡ None → kept_at page.now.instances.items number ≡ None }
{
    let place = match number.checked_sub(1) {
        Some(place) => place as usize,
        None => return None,
    };
    if place < page.instances.len() {
        Some(place)
    } else {
        None
    }
}

/// The place of the live instance of a name. It takes time in proportion to the logarithm of the number
/// of names.
pub fn live_place<F>(page: &Page<F>, name: &ModName) -> Option<usize>
    ensures within { IfSome result (λ k. k < length page.now.instances.items) }
    ensures place { (r : Runtime) → StandsFor r page.now
        → number_in (live_at r.instances name.now) ≡ option_map suc result }
{
    match page.live.get(name) {
        Some(number) => place_of(page, number),
        None => None,
    }
}

/// How a boundary is told of a module by a plan, as the page stands before the plan: the module gets a
/// new instance, or it is forced.
pub fn telling<F>(
    page: &Page<F>,
    boundary: &ModName,
    name: &ModName,
    is_new: bool,
    is_forced: bool,
) -> Telling
    ensures within { is_within result (length page.now.instances.items) }
    ensures told { (p : Plan) (r : Runtime) → StandsFor r page.now
        → has (new_names p r) name.now ≡ is_new
        → has r.page.forced name.now ≡ is_forced → (now : Runtime)
        → told_by boundary.now name.now result now
        ≡ tell_boundary module_language p r (boundary.now, name.now) now }
{
    if is_new {
        if *boundary == *name {
            match live_place(page, name) {
                Some(place) => Telling::Own(place),
                None => Telling::Silent,
            }
        } else {
            Telling::Dep
        }
    } else if is_forced {
        Telling::Dep
    } else {
        Telling::Silent
    }
}

/// A pair of a boundary and a module, with how the boundary is told.
fn told<F>(
    page: &Page<F>,
    pair: &(ModName, ModName),
    numbers: &Numbers,
    forced: &NameSet,
) -> Result<Told, AllocError>
    ensures within { IfOk result (λ t. is_within t.telling (length page.now.instances.items)) }
    ensures told { (p : Plan) (r : Runtime) → StandsFor r page.now → IsAsKnown numbers.now forced.now p r
        → (now : Runtime)
        → IfOk result (λ t. told t now ≡ tell_boundary module_language p r pair.now now) }
{
    let is_new = numbers.get(&pair.1).is_some();
    let is_forced = forced.has(&pair.1);
    let telling = telling(page, &pair.0, &pair.1, is_new, is_forced);
    Ok(Told {
        boundary: pair.0.clone()?,
        name: pair.1.clone()?,
        telling,
    })
}

/// How the boundaries of an update are told of their modules, pair by pair, as the page stands before
/// the update: where `numbers` has those that the new instances get, and `forced` the modules that
/// count as changed. It takes time in proportion to the number of pairs, and to the logarithm of the
/// number of names.
pub fn tellings<F>(
    page: &Page<F>,
    alloc: Global,
    pairs: &[(ModName, ModName)],
    numbers: &Numbers,
    forced: &NameSet,
) -> Result<Vec<Told>, AllocError>
    ensures within { IfOk result (λ rows.
        All (λ t. is_within t.telling (length page.now.instances.items)) rows.items) }
    ensures told { (p : Plan) (r : Runtime) → StandsFor r page.now → IsAsKnown numbers.now forced.now p r
        → (now : Runtime) → IfOk result (λ rows. for_each told rows.items now
        ≡ for_each (tell_boundary module_language p r) pairs.now now) }
{
    let mut rows = Vec::new(alloc);
    for pair in pairs {
        let row = told(page, pair, numbers, forced)?;
        rows.push(row)?;
    }
    Ok(rows)
}
