// The names that a search knows: in the order in which they came, and marked in a set, so that a name is
// looked up in the time of the logarithm of their number.
ghost use Rattle.std.specs.Prelude.{◌≡◌, [], not, true, IfOk, OnErr, OnOk, length};
ghost use Rattle.core_model.specs.Names.{Name, has};
ghost use Rattle.core_model.specs.Roots.{are_distinct};
ghost use Rattle.module_graph.specs.Paths.{Adds, AreMarked, with_new};

use crate::name_set::NameSet;
use crate::names::copy_name;
use hmr_types::ModName;
use std::alloc::{AllocError, Global};
use std::marker::Model;

/// Known names. Contracts see them as a list, in the order in which they came: no two are equal.
#[derive(Drop)]
pub struct Known {
    names: Vec<ModName>,
    marks: NameSet,
}

impl Model for Known {
    ghost use Rattle.std.specs.Prelude.{List};
    ghost use Rattle.core_model.specs.Names.{Name};
    ghost use Rattle.module_graph.specs.Paths.{AreMarked};

    ghost Value = { List Name };

    ghost view = { λ k. k.names.items };

    ghost invariant = { λ k. AreMarked k.marks k.names.items };
}

impl Known {
    /// No names.
    pub fn new(alloc: Global) -> Known
        ensures { result ≡ [] }
    {
        Known {
            names: Vec::new(alloc),
            marks: NameSet::new(alloc),
        }
    }

    /// The names, in the order in which they came.
    pub fn names(&self) -> &[ModName]
        ensures names { result.now ≡ self.now }
        ensures distinct { are_distinct self.now ≡ true }
    {
        &self.names
    }

    /// The names, in the order in which they came.
    pub fn into_names(self) -> Vec<ModName>
        ensures names { result.items ≡ self }
        ensures distinct { are_distinct self ≡ true }
    {
        self.names
    }

    /// Whether a name is known.
    pub fn has(&self, name: &ModName) -> bool
        ensures { result ≡ has self.now name.now }
    {
        self.marks.has(name)
    }

    /// Adds a name, and tells whether it is new. A refusal changes nothing.
    pub fn add(&mut self, name: &ModName) -> Result<bool, AllocError>
        ensures ok { OnOk result (self.new ≡ with_new self.old name.now) }
        ensures new { IfOk result (λ new. new ≡ not (has self.old name.now)) }
        ensures err { OnErr result (self.new ≡ self.old) }
    {
        add_marked(&mut self.names, &mut self.marks, name)
    }

    /// Adds the names that aren't known yet.
    pub fn add_all(&mut self, names: &[ModName]) -> Result<(), AllocError>
        ensures { OnOk result (Adds self.old names.now self.new) }
    {
        for name in names {
            self.add(name)?;
        }
        Ok(())
    }
}

// Adds a name and its mark.
fn add_marked(
    names: &mut Vec<ModName>,
    marks: &mut NameSet,
    name: &ModName,
) -> Result<bool, AllocError>
    requires marked { AreMarked marks.old names.old.items }
    ensures ok { OnOk result (names.new.items ≡ with_new names.old.items name.now) }
    ensures new { IfOk result (λ new. new ≡ not (has names.old.items name.now)) }
    ensures err { OnErr result (names.new.items ≡ names.old.items) }
    ensures marked { AreMarked marks.new names.new.items }
{
    if marks.has(name) {
        return Ok(false);
    }
    let copy = copy_name(name)?;
    let mark = copy_name(name)?;
    names.push(copy)?;
    match marks.add(mark) {
        Ok(_) => Ok(true),
        Err(refused) => {
            names.pop();
            Err(refused)
        }
    }
}
