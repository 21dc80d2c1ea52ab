// The modules of a page: a map by name whose entries stay in order of entering, and beside it who imports
// and who accepts each name. What changes an entry changes these indexes with it: putting an entry
// takes the memory for all first, so that a refusal leaves all as they were.
ghost use Rattle.std.specs.Prelude.{◌≡◌, ◌↔◌, [], true, IfOk, OnOk, OnErr, Contains};
ghost use Rattle.std.specs.Prelude.{option_map, position, slice_get};
ghost use Rattle.std.specs.Cmp.Lexicographic.{slice_cmp};
ghost use Rattle.std.specs.List.Sorted.{IsStrictlySortedBy};
ghost use Rattle.std.specs.Ordering.{nat_cmp};
ghost use Rattle.core_model.specs.Names.{Name, at, names_of, same_name, without_all};
ghost use Rattle.core_model.specs.Roots.{are_distinct};
ghost use Rattle.core_model.specs.View.{imports, accepts, self_accepts, declines};
ghost use Rattle.module_graph.specs.Entries.{lists_alike, put_entry};
ghost use Rattle.module_graph.specs.ReverseIndex.{IsWithout};
ghost use Rattle.module_graph.specs.Rows.{AreIndexed, view_of};

use crate::indexes::Indexes;
use crate::view_rows::{
    Entry, Row, copy_of, drop_rows, find, lists_alike, lists_of, names_in, place_of, renew,
};
use hmr_types::{Analysis, ModName, Ver};
use indexmap::IndexMap;
use std::alloc::{AllocError, Global};
use std::marker::Model;

/// The modules of a page by name, in order of entering. Contracts see it as the list of its entries,
/// of which no two have one name.
#[derive(Drop)]
pub struct View {
    rows: IndexMap<ModName, Row>,
    indexes: Indexes,
}

impl Model for View {
    ghost use Rattle.core_model.specs.View.{View};
    ghost use Rattle.module_graph.specs.Rows.{AreIndexed, view_of};

    ghost Value = { View };

    ghost view = { λ v. view_of v.rows.entries };

    ghost invariant = { λ v.
        AreIndexed v.rows.entries v.indexes.importers.sets.entries v.indexes.acceptors.sets.entries };
}

impl View {
    /// The view without modules.
    pub fn new(alloc: Global) -> View
        ensures { result ≡ [] }
    {
        View {
            rows: IndexMap::new(alloc),
            indexes: Indexes::new(alloc),
        }
    }

    /// The version and the analysis of a module: one look-up by hash.
    pub fn get(&self, name: &ModName) -> Option<(Ver, &Analysis)>
        ensures { option_map (λ found. record { version = found.0; analysis = found.1.now }) result
            ≡ at self.now name.now }
    {
        let entry = find(&self.rows, name)?;
        Some((entry.version, &entry.analysis))
    }

    /// The module at this place, from 0, in order of entering: None exactly past the end.
    pub fn at(&self, place: usize) -> Option<(&ModName, Ver, &Analysis)>
        ensures { option_map (λ found. (found.0.now, record { version = found.1; analysis = found.2.now }))
            result ≡ slice_get self.now place }
    {
        let (name, row) = self.rows.get_index(place)?;
        Some((name, row.entry.version, &row.entry.analysis))
    }

    /// The place of the module of this name, from 0, in order of entering; None exactly where there is none.
    /// It is one look-up by hash.
    pub fn place(&self, name: &ModName) -> Option<usize>
        ensures { result ≡ position (same_name name.now) (names_of self.now) }
    {
        place_of(&self.rows, name)
    }

    /// The names of the modules, in order of entering.
    pub fn names(&self, alloc: Global) -> Result<Vec<ModName>, AllocError>
        ensures names { IfOk result (λ names. names.items ≡ names_of self.now) }
        ensures distinct { are_distinct (names_of self.now) ≡ true }
    {
        let names = names_in(alloc, &self.rows)?;
        Ok(names)
    }

    /// Whether the module of this name imports the other.
    pub fn imports(&self, name: &ModName, import: &ModName) -> bool
        ensures { result ≡ imports self.now name.now import.now }
    {
        self.indexes.importers.has(import, name)
    }

    /// Whether the module of this name accepts the other by name.
    pub fn accepts(&self, name: &ModName, dependency: &ModName) -> bool
        ensures { result ≡ accepts self.now name.now dependency.now }
    {
        self.indexes.acceptors.has(dependency, name)
    }

    /// Whether the module of this name accepts itself.
    pub fn self_accepts(&self, name: &ModName) -> bool
        ensures { result ≡ self_accepts self.now name.now }
    {
        match find(&self.rows, name) {
            Some(entry) => entry.analysis.self_accepts,
            None => false,
        }
    }

    /// Whether the module of this name declines.
    pub fn declines(&self, name: &ModName) -> bool
        ensures { result ≡ declines self.now name.now }
    {
        match find(&self.rows, name) {
            Some(entry) => entry.analysis.declined,
            None => false,
        }
    }

    /// The names of the modules that import this one, rising by bytes; the name needs no module of its
    /// own. They are kept in that order: it takes time in proportion to the answer.
    pub fn importers(&self, alloc: Global, name: &ModName) -> Result<Vec<ModName>, AllocError>
        ensures rising { IfOk result (λ names. IsStrictlySortedBy (slice_cmp nat_cmp) names.items) }
        ensures exact { IfOk result (λ names. (m : Name) →
            Contains names.items m ↔ (imports self.now m name.now ≡ true)) }
    {
        let names = self.indexes.importers.of(alloc, name)?;
        Ok(names)
    }

    /// The names of the modules that accept this one by name, rising by bytes; the name needs no module of
    /// its own. They are kept in that order: it takes time in proportion to the answer.
    pub fn acceptors(&self, alloc: Global, name: &ModName) -> Result<Vec<ModName>, AllocError>
        ensures rising { IfOk result (λ names. IsStrictlySortedBy (slice_cmp nat_cmp) names.items) }
        ensures exact { IfOk result (λ names. (m : Name) →
            Contains names.items m ↔ (accepts self.now m name.now ≡ true)) }
    {
        let names = self.indexes.acceptors.of(alloc, name)?;
        Ok(names)
    }

    /// Puts a module in place of the one of its name, or else at the end. A refusal changes nothing. Each
    /// import and each accepted name is looked up by hash, and the name found among its importers or
    /// acceptors by their order; those of the module before are first compared with the new ones.
    pub fn put(&mut self, name: ModName, ver: Ver, analysis: Analysis) -> Result<(), AllocError>
        ensures ok { OnOk result
            (self.new ≡ put_entry name (record { version = ver; analysis = analysis }) self.old) }
        ensures err { OnErr result (self.new ≡ self.old) }
    {
        let entry = Entry {
            version: ver,
            analysis,
        };
        put_row(&mut self.rows, &mut self.indexes, name, entry)
    }

    /// Whether the view has a module of this name, which imports and accepts by name what the analysis says,
    /// in the same order: one look-up by hash, and a comparison of the lists.
    pub fn lists_alike(&self, name: &ModName, analysis: &Analysis) -> bool
        ensures { result ≡ lists_alike (at self.now name.now) analysis.now }
    {
        lists_alike(&self.rows, name, analysis)
    }

    /// Puts a module in place of the one of its name, which lists the same modules. It takes the time of one
    /// look-up by hash.
    pub fn renew(&mut self, name: &ModName, ver: Ver, analysis: Analysis)
        requires { lists_alike (at self.old name.now) analysis ≡ true }
        ensures { self.new
            ≡ put_entry name.now (record { version = ver; analysis = analysis }) self.old }
    {
        let entry = Entry {
            version: ver,
            analysis,
        };
        renew(&mut self.rows, name, entry);
    }

    /// Takes away the modules of these names. The others keep their order. It takes the time of one walk of
    /// the view and of look-ups of the names and of what their modules import and accept.
    pub fn drop_names(&mut self, names: &[ModName])
        ensures { self.new ≡ without_all names.now self.old }
    {
        take_out(&mut self.indexes, &self.rows, names);
        drop_rows(&mut self.rows, names);
    }

    /// An equal view. It takes time in proportion to the modules, their imports and what they accept.
    pub fn copy(&self, alloc: Global) -> Result<View, AllocError>
        ensures { IfOk result (λ view. view ≡ self.now) }
    {
        let rows = copy_of(&self.rows)?;
        let indexes = self.indexes.copy()?;
        Ok(View { rows, indexes })
    }
}

// Puts an entry, and its module under what it imports and accepts. What may need memory comes before what
// changes an entry.
fn put_row(
    rows: &mut IndexMap<ModName, Row>,
    indexes: &mut Indexes,
    name: ModName,
    entry: Entry,
) -> Result<(), AllocError>
    requires { AreIndexed rows.old.entries
        indexes.old.importers.sets.entries indexes.old.acceptors.sets.entries }
    ensures ok { OnOk result (view_of rows.new.entries ≡ put_entry name entry (view_of rows.old.entries)) }
    ensures err { OnErr result (view_of rows.new.entries ≡ view_of rows.old.entries) }
    ensures indexed { AreIndexed rows.new.entries
        indexes.new.importers.sets.entries indexes.new.acceptors.sets.entries }
{
    rows.reserve(1)?;
    let before = lists_of(rows, &name);
    indexes.replace(&name, before, entry.lists())?;
    let row = Row {
        entry,
        leaving: false,
    };
    rows.insert(name, row).unwrap();
    Ok(())
}

// Takes the modules of these names away from under what they import and accept.
fn take_out(indexes: &mut Indexes, rows: &IndexMap<ModName, Row>, names: &[ModName])
    requires { AreIndexed rows.now.entries
        indexes.old.importers.sets.entries indexes.old.acceptors.sets.entries }
    ensures importers { IsWithout names.now
        indexes.old.importers.sets.entries indexes.new.importers.sets.entries }
    ensures acceptors { IsWithout names.now
        indexes.old.acceptors.sets.entries indexes.new.acceptors.sets.entries }
{
    for name in names {
        indexes.remove(name, lists_of(rows, name));
    }
}
