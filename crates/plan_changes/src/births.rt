// What the new instances of a plan are made from. It is found before the old instances end, since links are
// by the numbers that are live once the plan is applied.
ghost use Rattle.std.specs.Prelude.{◌≡◌, ◌+◌, ◌≤◌, ◌++◌};
ghost use Rattle.std.specs.Prelude.{if◌then◌else◌, length, option_to_list, suc, Some, None, IfOk, OnOk};
ghost use Rattle.std.specs.List.{AllZip};
ghost use Rattle.module_tree.specs.declared.tree.Module.{Module};
ghost use Rattle.hmr_types.specs.declared.limits.TheConstants.{INSTANCES};
ghost use Rattle.core_model.specs.Names.{Name, at, has};
ghost use Rattle.client_model.specs.Linking.{link_to, place_of};
ghost use Rattle.page_plan.specs.Numbers.{new_number};
ghost use Rattle.plan_changes.specs.Changing.{IsMadeOf, links_by};

use hmr_types::{ModName, Name, Sequence};
use module_graph::{View, copy_name};
use module_tree::Module;
use page_births::Birth;
use page_plan::{Numbers, Plan};
use page_state::{LiveNumbers, Page};
use std::alloc::{AllocError, Global};
use std::collections::BTreeMap;

/// The numbers that new instances of these names get, one after another behind those of the page. It takes
/// time in proportion to the names, each with the logarithm of their number. It fails only where memory
/// runs out.
pub(crate) fn numbers_of<F>(
    alloc: Global,
    page: &Page<F>,
    names: &[ModName],
) -> Result<Numbers, AllocError>
    requires { length page.now.instances.items + length names.now ≤ INSTANCES }
    ensures { (n : Name) → IfOk result (λ numbers. new_number numbers n ≡ (if has names.now n
        then Some (suc (length page.now.instances.items) + place_of names.now n) else None)) }
{
    let made = page.instances.len() as u32;
    let numbers = Numbers::of(alloc, made, names)?;
    Ok(numbers)
}

/// What the new instances of these names are made from, in order: their entries in the plan, the trees of
/// their texts, which are taken out of these trees, and their links. It fails where memory runs out; a name
/// without an entry or a tree, of which there is none once all is fetched, is answered as that is. It takes
/// time in proportion to the names and their imports, each with the logarithm of the number of modules.
pub(crate) fn births_of(
    alloc: Global,
    plan: &Plan,
    view: &View,
    numbers: &Numbers,
    live: &LiveNumbers,
    trees: &mut BTreeMap<ModName, Module>,
    names: &[ModName],
) -> Result<Vec<Birth>, AllocError>
    ensures { IfOk result (λ births. AllZip
        (IsMadeOf plan.now view.now numbers.now live.now trees.old.entries) names.now births.items) }
{
    let mut births = Vec::new(alloc);
    for name in names {
        let birth = birth_of(alloc, plan, view, numbers, live, trees, name)?;
        births.push(birth)?;
    }
    Ok(births)
}

// What the new instance of a name is made from. Its tree is taken out of the trees.
fn birth_of(
    alloc: Global,
    plan: &Plan,
    view: &View,
    numbers: &Numbers,
    live: &LiveNumbers,
    trees: &mut BTreeMap<ModName, Module>,
    name: &ModName,
) -> Result<Birth, AllocError>
    ensures birth { IfOk result
        (IsMadeOf plan.now view.now numbers.now live.now trees.old.entries name.now) }
    ensures trees { (n : Name) (tree : Module) → at trees.new.entries n ≡ Some tree
        → at trees.old.entries n ≡ Some tree }
{
    let (version, analysis) = match plan.entry(view, name) {
        Some(entry) => entry,
        None => return Err(AllocError),
    };
    let tree = match trees.remove(name) {
        Some(tree) => tree,
        None => return Err(AllocError),
    };
    Ok(Birth {
        name: copy_name(name)?,
        version,
        exports: copy_exports(&analysis.exports)?,
        links: links_of(alloc, numbers, live, analysis.imports.as_slice())?,
        tree,
    })
}

// An equal list of exports.
fn copy_exports(exports: &Sequence<Name>) -> Result<Sequence<Name>, AllocError>
    ensures { IfOk result (λ copy. copy ≡ exports.now) }
{
    exports.clone()
}

// The imports of a new instance, each with the number that is live under it once the plan is applied.
fn links_of(
    alloc: Global,
    numbers: &Numbers,
    live: &LiveNumbers,
    imports: &[ModName],
) -> Result<Sequence<(ModName, u32)>, AllocError>
    ensures { IfOk result (λ links. links ≡ links_by numbers.now live.now imports.now) }
{
    let mut links = Vec::new(alloc);
    for import in imports {
        let number = numbers.after(import, live.get(import));
        add_link(&mut links, import, number)?;
    }
    Ok(Sequence::from_vec(links))
}

// Adds an import with its number, where it has one.
fn add_link(
    links: &mut Vec<(ModName, u32)>,
    import: &ModName,
    number: Option<u32>,
) -> Result<(), AllocError>
    ensures { OnOk result (links.new.items
        ≡ links.old.items ++ option_to_list (link_to import.now number)) }
{
    if let Some(number) = number {
        links.push((copy_name(import)?, number))?;
    }
    Ok(())
}
