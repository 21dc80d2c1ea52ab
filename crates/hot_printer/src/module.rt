// The text of a module: its items, in order.
ghost use Rattle.std.specs.Prelude.{◌≡◌, ◌++◌, IfOk, OnOk, map};
ghost use Rattle.module_tree.specs.Tree.{item_of, module_of};
ghost use Rattle.module_semantics.specs.Canon.{canon};

use crate::item::put_item;
use module_tree::{Item, Module};
use std::alloc::{AllocError, Global};

/// The canonical text of a module: each item and statement on lines of its own, two spaces for each
/// block, and parentheses exactly where an operand is of a lower level than its place asks for.
///
/// Every tree has one, also a tree that no text has. It fails only where memory runs out. It takes
/// time in proportion to the tree and its text, and stack in proportion to what is nested in it; a row
/// of operators takes none.
pub fn print(alloc: Global, module: &Module) -> Result<Vec<u8>, AllocError>
    ensures exact { IfOk result (λ bytes. bytes.items ≡ canon (module_of module.now)) }
{
    let mut out = Vec::new(alloc);
    put_items(alloc, &mut out, &module.items)?;
    Ok(out)
}

fn put_items(alloc: Global, out: &mut Vec<u8>, items: &[Item]) -> Result<(), AllocError>
    ensures { OnOk result (out.new.items ≡ out.old.items ++ canon (map item_of items.now)) }
{
    for item in items {
        put_item(alloc, out, item)?;
    }
    Ok(())
}
