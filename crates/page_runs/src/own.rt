// The callbacks of an instance on its own module are run, each at most once. The earliest is taken and run
// until none is left.
ghost use Rattle.std.specs.Prelude.{◌≡◌, ◌<◌, ◌∷◌, [], List, suc, true, false, Some, length, IfOk, OnOk};
ghost use Rattle.output_lines.specs.declared.out_line.OutLine as line;
ghost use Rattle.client_model.specs.Applying.{run_own};
ghost use Rattle.module_language.specs.ModuleLanguage.{module_language, argument_of};
ghost use Rattle.page_state.specs.declared.page.Page as kept;
ghost use Rattle.page_state.specs.Settling.{live_in, exports_of, own_left};
ghost use Rattle.page_state.specs.Standing.{Follows, KeepWords};

use crate::settling::settle;
use crate::spending::spend;
use hmr_types::ModName;
use module_semantics::ModParam;
use output_lines::{FaultPlace, OutLine};
use page_instances::{exports_in, imports_in};
use page_state::Page;
use retained_data::{Bag, Ran};
use std::alloc::{AllocError, Global};

/// The live module of a name as the argument of a callback.
pub fn argument<F>(page: &Page<F>, alloc: Global, name: &ModName) -> Result<ModParam, AllocError>
    ensures { IfOk result (λ m. m ≡ argument_of (exports_of (live_in page.now name.now))) }
{
    match page.live_instance(name) {
        Some(instance) => exports_in(alloc, instance),
        None => Ok(ModParam::Undef),
    }
}

/// The arguments of a callback of a module on itself.
fn own_arguments<F>(
    page: &Page<F>,
    alloc: Global,
    name: &ModName,
) -> Result<Vec<ModParam>, AllocError>
    ensures { IfOk result (λ ms. ms.items ≡ argument_of (exports_of (live_in page.now name.now)) ∷ []) }
{
    let mut mods = Vec::new(alloc);
    mods.push(argument(page, alloc, name)?)?;
    Ok(mods)
}

/// The earliest callback on itself that the instance at a place holds is run; false where it holds
/// none.
fn run_next_own<F: FnOnce(Bag) -> Result<Ran, AllocError> + Drop>(
    page: &mut Page<F>,
    alloc: Global,
    place: usize,
    name: &ModName,
    lines: &mut Vec<OutLine>,
) -> Result<bool, AllocError>
    requires place { place < length page.old.instances.items }
    requires callable { (f : F) → F.IsAlwaysCallable f }
    requires words { KeepWords F.post page.old }
    ensures count { OnOk result (length page.new.instances.items ≡ length page.old.instances.items) }
    ensures words { OnOk result (KeepWords F.post page.new) }
    ensures fewer { IfOk result
        (λ more. more ≡ true → own_left page.new place < own_left page.old place) }
    ensures none { IfOk result (λ more. more ≡ false
        → Follows (run_own module_language (Some (suc place)) name.now)
        page.old page.new lines.old.items lines.new.items) }
    ensures one { IfOk result (λ more. more ≡ true → (z : kept.Page F) (tells : List line.OutLine)
        → Follows (run_own module_language (Some (suc place)) name.now) page.new z lines.new.items tells
        → Follows
        (run_own module_language (Some (suc place)) name.now) page.old z lines.old.items tells) }
{
    let imports = imports_in(alloc, &page.instances, &page.instances[place])?;
    let mods = own_arguments(page, alloc, name)?;
    let handler = match page.instances[place].take_own() {
        Some(handler) => handler,
        None => return Ok(false),
    };
    let bag = page.bags.take(alloc, &page.instances[place].name);
    let own = page.instances[place].values.as_slice();
    let ran = spend(alloc, handler, own, &imports, &mods, bag)?;
    settle(page, place, FaultPlace::Own, ran, lines)?;
    Ok(true)
}

/// The callbacks on itself that the instance at a place holds are run, in the order in which they came.
/// Each is given the live module of the name. Adds their lines. It fails only where memory runs out;
/// the page can't be used then.
pub fn run_own<F: FnOnce(Bag) -> Result<Ran, AllocError> + Drop>(
    page: &mut Page<F>,
    alloc: Global,
    place: usize,
    name: &ModName,
    lines: &mut Vec<OutLine>,
) -> Result<(), AllocError>
    requires place { place < length page.old.instances.items }
    requires callable { (f : F) → F.IsAlwaysCallable f }
    requires words { KeepWords F.post page.old }
    ensures count { OnOk result (length page.new.instances.items ≡ length page.old.instances.items) }
    ensures words { OnOk result (KeepWords F.post page.new) }
    ensures follows { OnOk result (Follows (run_own module_language (Some (suc place)) name.now)
        page.old page.new lines.old.items lines.new.items) }
{
    let mut more = true;
    while more {
        more = run_next_own(page, alloc, place, name, lines)?;
    }
    Ok(())
}
