// What the specifiers of a module mean, in the order of the text, up to the first that means none.
ghost use Rattle.std.specs.Prelude.{◌≡◌, IfOk, map};
ghost use Rattle.hmr_types.specs.Specifier.{Gives};
ghost use Rattle.module_tree.specs.Tree.{item_of};
ghost use Rattle.import_scan.specs.Scanning.{add_import, meant_in, meant_of, with_accepts};
ghost use Rattle.import_scan.specs.Scanning.{with_import, with_item, with_items};

use hmr_types::limits::IMPORTS;
use hmr_types::{ModName, SpecFault, Text, resolve};
use module_tree::Item;
use std::alloc::{AllocError, Global};

/// The modules that specifiers mean.
#[derive(Drop)]
pub(crate) struct Meant {
    /// The imported modules, each once, where it comes first. Of more than 256 the first 257.
    pub imported: Vec<ModName>,
    /// The accepted modules, as often as they are accepted.
    pub accepted: Vec<ModName>,
}

/// What the specifiers of these items mean to the module `base`, or why the first that means no
/// module means none. It takes time linear in the items and their specifiers.
pub(crate) fn meant_in(alloc: Global, base: &ModName, items: &[Item]) -> Result<Meant, SpecFault>
    ensures { Gives meant_of result (meant_in base.now (map item_of items.now)) }
{
    let mut meant = Meant {
        imported: Vec::new(alloc),
        accepted: Vec::new(alloc),
    };
    meant.read_items(alloc, base, items)?;
    Ok(meant)
}

impl Meant {
    fn read_items(&mut self, alloc: Global, base: &ModName, items: &[Item]) -> Result<(), SpecFault>
        ensures { Gives
            (λ _. meant_of self.new)
            result (with_items base.now (meant_of self.old) (map item_of items.now)) }
    {
        for item in items {
            self.read_item(alloc, base, item)?;
        }
        Ok(())
    }

    fn read_item(&mut self, alloc: Global, base: &ModName, item: &Item) -> Result<(), SpecFault>
        ensures { Gives
            (λ _. meant_of self.new) result (with_item base.now (meant_of self.old) (item_of item.now)) }
    {
        match item {
            Item::Import { spec, names: _ } => self.read_import(alloc, base, spec),
            Item::Deps {
                list: _,
                specs,
                call: _,
            } => self.read_accepts(alloc, base, specs.as_slice()),
            _ => Ok(()),
        }
    }

    fn read_import(&mut self, alloc: Global, base: &ModName, spec: &Text) -> Result<(), SpecFault>
        ensures { Gives (λ _. meant_of self.new) result (with_import base.now (meant_of self.old) spec.now) }
    {
        let name = resolve(alloc, base, spec.as_str().as_bytes())?;
        add_import(&mut self.imported, name)?;
        Ok(())
    }

    fn read_accepts(
        &mut self,
        alloc: Global,
        base: &ModName,
        specs: &[Text],
    ) -> Result<(), SpecFault>
        ensures { Gives
            (λ _. meant_of self.new) result (with_accepts base.now (meant_of self.old) specs.now) }
    {
        for spec in specs {
            let name = resolve(alloc, base, spec.as_str().as_bytes())?;
            self.accepted.push(name)?;
        }
        Ok(())
    }
}

/// One more name behind those that came, where it is new and they aren't too many.
fn add_import(came: &mut Vec<ModName>, name: ModName) -> Result<(), AllocError>
    ensures { IfOk result (λ _. came.new.items ≡ add_import came.old.items name) }
{
    let passed_over = came.contains(&name) || came.len() > IMPORTS;
    if !passed_over {
        came.push(name)?;
    }
    Ok(())
}
