// The names that a module imports, by the module that they are imported from.
ghost use Rattle.std.specs.Prelude.{◌≡◌, ◌++◌, ◌∷◌, [], IfOk, None, OnOk, Some, if◌then◌else◌};
ghost use Rattle.core_model.specs.Names.{Name, at, same_name};
ghost use Rattle.core_model.specs.FreshLoad.{linked_from};
ghost use Rattle.fresh_loads.specs.Searching.{kept_or_none};

use hmr_types::{ModName, Name, Sequence};
use import_links::Link;
use std::alloc::{AllocError, Global};
use std::collections::BTreeMap;
use std::marker::Model;

/// The names that a module imports from each of its dependencies. Contracts see the lists by name.
#[derive(Drop)]
pub(crate) struct Linked {
    names: BTreeMap<ModName, Sequence<Name>>,
}

impl Model for Linked {
    ghost use Rattle.std.specs.Prelude.{List};
    ghost use Rattle.core_model.specs.Names.{Name};

    ghost Value = { List (Name × List Name) };

    ghost view = { λ l. l.names.entries };
}

impl Linked {
    /// The names of these links. It looks at each link once.
    pub(crate) fn of(alloc: Global, links: &[Link]) -> Result<Linked, AllocError>
        ensures { IfOk result (λ linked. (m : Name) → kept_or_none (at linked m) ≡ linked_from links.now m) }
    {
        let mut linked = Linked {
            names: BTreeMap::new(alloc),
        };
        for link in links {
            linked.add(alloc, link)?;
        }
        Ok(linked)
    }

    /// The names that are imported from this module, in the order of their links.
    pub(crate) fn get(&self, name: &ModName) -> &[Name]
        ensures { result.now ≡ kept_or_none (at self.now name.now) }
    {
        let Some(names) = self.names.get(name) else {
            return &[];
        };
        names.as_slice()
    }

    // One name more, behind the others of its module.
    fn add(&mut self, alloc: Global, link: &Link) -> Result<(), AllocError>
        ensures { (m : Name) → OnOk result
            (kept_or_none (at self.new m) ≡ kept_or_none (at self.old m) ++ linked_from (link.now ∷ []) m) }
    {
        let mut names = self.take(alloc, link.dependency());
        names.push(link.name().clone()?)?;
        self.put(link.dependency().clone()?, names)?;
        Ok(())
    }

    fn take(&mut self, alloc: Global, name: &ModName) -> Vec<Name>
        ensures names { result.items ≡ kept_or_none (at self.old name.now) }
        ensures left { (m : Name) → at self.new m ≡ (if same_name name.now m then None else at self.old m) }
    {
        let Some(names) = self.names.remove(name) else {
            return Vec::new(alloc);
        };
        names.into_vec()
    }

    fn put(&mut self, name: ModName, names: Vec<Name>) -> Result<(), AllocError>
        ensures { (m : Name) → OnOk result
            (at self.new m ≡ (if same_name name m then Some names.items else at self.old m)) }
    {
        self.names.insert(name, Sequence::from_vec(names))?;
        Ok(())
    }
}
