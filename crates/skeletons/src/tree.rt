// The tree of a skeleton: a stamp, imports without names, and calls of `import.meta.hot`.
ghost use Rattle.std.specs.Prelude.{◌≡◌, ◌++◌, ◌∷◌, [], IfOk, OnOk, map};
ghost use Rattle.module_tree.specs.Tree.{item_of, module_of};
ghost use Rattle.skeletons.specs.Skeletons.{accept_items, decline_items, import_item, own_items, skeleton};
ghost use Rattle.skeletons.specs.Skeletons.{stamp_item};

use hmr_types::{Analysis, ModName, Name, Sequence, Text};
use module_tree::{Expr, Item, Module};
use std::alloc::{AllocError, Global};

/// The tree of the skeleton that says what is told. It takes time and memory linear in that.
#[tactic(auto, unfolding(crate::specs::Skeletons::said))]
pub(crate) fn skeleton_tree(
    alloc: Global,
    stamp: u64,
    told: &Analysis,
) -> Result<Module, AllocError>
    ensures { IfOk result (λ tree. module_of tree ≡ skeleton stamp told.now) }
{
    let mut items = Vec::new(alloc);
    items.push(stamp_item(alloc, stamp)?)?;
    add_imports(alloc, &mut items, told.imports.as_slice())?;
    add_calls(alloc, &mut items, told)?;
    Ok(Module { items })
}

fn stamp_item(alloc: Global, stamp: u64) -> Result<Item, AllocError>
    ensures { IfOk result (λ item. item_of item ≡ stamp_item stamp) }
{
    Ok(Item::Declare {
        exported: false,
        mutable: false,
        name: Name::from_string(String::from_str(alloc, "$$stamp")?),
        value: Expr::Num(stamp),
    })
}

/// The name as a specifier.
fn specifier(alloc: Global, name: &ModName) -> Result<Text, AllocError>
    ensures { IfOk result (λ text. text ≡ name.now) }
{
    Ok(Text::from_string(String::from_str(alloc, name.as_str())?))
}

fn add_imports(alloc: Global, items: &mut Vec<Item>, names: &[ModName]) -> Result<(), AllocError>
    ensures { OnOk result
        (map item_of items.new.items ≡ map item_of items.old.items ++ map import_item names.now) }
{
    for name in names {
        add_import(alloc, items, name)?;
    }
    Ok(())
}

fn add_import(alloc: Global, items: &mut Vec<Item>, name: &ModName) -> Result<(), AllocError>
    ensures { OnOk result
        (map item_of items.new.items ≡ map item_of items.old.items ++ import_item name.now ∷ []) }
{
    let spec = specifier(alloc, name)?;
    let names = Sequence::from_vec(Vec::new(alloc));
    items.push(Item::Import { spec, names })?;
    Ok(())
}

fn add_calls(alloc: Global, items: &mut Vec<Item>, told: &Analysis) -> Result<(), AllocError>
    ensures { OnOk result
        (map item_of items.new.items
        ≡ map item_of items.old.items
        ++ (own_items told.now.self_accepts
        ++ (accept_items told.now.accepted ++ decline_items told.now.declined))) }
{
    add_own(items, told.self_accepts)?;
    add_accepts(alloc, items, told.accepted.as_slice())?;
    add_decline(items, told.declined)?;
    Ok(())
}

fn add_own(items: &mut Vec<Item>, accepts: bool) -> Result<(), AllocError>
    ensures { OnOk result (map item_of items.new.items ≡ map item_of items.old.items ++ own_items accepts) }
{
    if accepts {
        items.push(Item::Own(None))?;
    }
    Ok(())
}

fn add_decline(items: &mut Vec<Item>, declined: bool) -> Result<(), AllocError>
    ensures { OnOk result (map item_of items.new.items ≡ map item_of items.old.items ++ decline_items declined) }
{
    if declined {
        items.push(Item::Decline)?;
    }
    Ok(())
}

fn add_accepts(alloc: Global, items: &mut Vec<Item>, names: &[ModName]) -> Result<(), AllocError>
    ensures { OnOk result (map item_of items.new.items ≡ map item_of items.old.items ++ accept_items names.now) }
{
    match names {
        [] => Ok(()),
        _ => {
            let specs = specifiers(alloc, names)?;
            items.push(Item::Deps {
                list: true,
                specs: Sequence::from_vec(specs),
                call: None,
            })?;
            Ok(())
        }
    }
}

fn specifiers(alloc: Global, names: &[ModName]) -> Result<Vec<Text>, AllocError>
    ensures { IfOk result (λ specs. specs.items ≡ names.now) }
{
    let mut specs = Vec::new(alloc);
    for name in names {
        specs.push(specifier(alloc, name)?)?;
    }
    Ok(specs)
}
