// A reverse index: which modules list a name. Each module of a view lists names, as its imports; turned
// round, each listed name has the set of the modules that list it. A name that no module lists has
// none, so a set that becomes empty goes.
ghost use Rattle.std.specs.Prelude.{◌≡◌, [], Bool, true, false, if◌then◌else◌, IfOk, IsTrue, OnOk, OnErr};
ghost use Rattle.std.specs.Cmp.Lexicographic.{slice_cmp};
ghost use Rattle.std.specs.List.Sorted.{IsStrictlySortedBy};
ghost use Rattle.std.specs.Ordering.{nat_cmp};
ghost use Rattle.core_model.specs.Names.{Name, has, same_name};
ghost use Rattle.module_graph.specs.ReverseIndex.{Leaves, Places, PlacesSome, is_under, under};

use crate::names::{copy_name, has_name};
use hmr_types::ModName;
use indexmap::IndexMap;
use std::alloc::{AllocError, Global};
use std::collections::BTreeSet;

/// The modules that list each name.
#[derive(Drop)]
pub(crate) struct ReverseIndex {
    pub(crate) sets: IndexMap<ModName, BTreeSet<ModName>>,
}

impl ReverseIndex {
    /// No module lists a name.
    pub(crate) fn new(alloc: Global) -> ReverseIndex
        ensures { (n m : Name) → is_under result.sets.entries n m ≡ false }
    {
        ReverseIndex {
            sets: IndexMap::new(alloc),
        }
    }

    /// The modules that list a name, rising by bytes. It takes time in proportion to the answer.
    pub(crate) fn of(&self, alloc: Global, name: &ModName) -> Result<Vec<ModName>, AllocError>
        ensures rising { IfOk result (λ names. IsStrictlySortedBy (slice_cmp nat_cmp) names.items) }
        ensures these { IfOk result (λ names. names.items ≡ under self.now.sets.entries name.now) }
    {
        match self.sets.get(name) {
            Some(set) => names_in(alloc, set),
            None => Ok(Vec::new(alloc)),
        }
    }

    /// Whether the module lists the name: a look-up by hash, and one in the order of names.
    pub(crate) fn has(&self, name: &ModName, lister: &ModName) -> bool
        ensures { result ≡ is_under self.now.sets.entries name.now lister.now }
    {
        match self.sets.get(name) {
            Some(set) => is_in(set, lister),
            None => false,
        }
    }

    /// Equal sets.
    pub(crate) fn copy(&self) -> Result<ReverseIndex, AllocError>
        ensures { let was = is_under self.now.sets.entries in
            IfOk result (λ copy. (n m : Name) → is_under copy.sets.entries n m ≡ was n m) }
    {
        let sets = self.sets.clone()?;
        Ok(ReverseIndex { sets })
    }

    /// Puts the lister, which is under the `old` names, under the `new` ones too. A refusal changes nothing.
    pub(crate) fn enter(
        &mut self,
        lister: &ModName,
        old: &[ModName],
        new: &[ModName],
    ) -> Result<(), AllocError>
        requires old { (n : Name) → is_under self.old.sets.entries n lister.now ≡ has old.now n }
        ensures ok { let passes : Name → Bool = λ n. if has new.now n then true else has old.now n in
            OnOk result (Places lister.now passes self.old.sets.entries self.new.sets.entries) }
        ensures err { OnErr result
            (Places lister.now (has old.now) self.old.sets.entries self.new.sets.entries) }
    {
        match self.enter_each(lister, new) {
            Ok(()) => Ok(()),
            Err(refused) => {
                self.leave(lister, new, old);
                Err(refused)
            }
        }
    }

    // Puts the lister under these names. After a refusal it is under some of them.
    fn enter_each(&mut self, lister: &ModName, names: &[ModName]) -> Result<(), AllocError>
        ensures ok { let passes : Name → Bool =
            λ n. if has names.now n then true else is_under self.old.sets.entries n lister.now in
            OnOk result (Places lister.now passes self.old.sets.entries self.new.sets.entries) }
        ensures err { OnErr result
            (PlacesSome lister.now names.now self.old.sets.entries self.new.sets.entries) }
    {
        for name in names {
            put_under(&mut self.sets, name, lister)?;
        }
        Ok(())
    }

    /// Takes the lister away from under these names, but from under the kept ones.
    pub(crate) fn leave(&mut self, lister: &ModName, names: &[ModName], kept: &[ModName])
        ensures { Leaves lister.now names.now kept.now self.old.sets.entries self.new.sets.entries }
    {
        for name in names {
            if !has_name(kept, name) {
                take_away(&mut self.sets, name, lister);
            }
        }
    }
}

/// The names of a set, rising by bytes.
pub(crate) fn names_in(alloc: Global, set: &BTreeSet<ModName>) -> Result<Vec<ModName>, AllocError>
    ensures these { IfOk result (λ names. names.items ≡ set.now.keys) }
    ensures rising { IfOk result (λ names. IsStrictlySortedBy (slice_cmp nat_cmp) names.items) }
{
    let mut names = Vec::new(alloc);
    for name in set.iter() {
        names.push(name.clone()?)?;
    }
    Ok(names)
}

fn is_in(set: &BTreeSet<ModName>, name: &ModName) -> bool
    ensures { result ≡ has set.now.keys name.now }
{
    set.contains(name)
}

// Puts the lister under a name.
fn put_under(
    sets: &mut IndexMap<ModName, BTreeSet<ModName>>,
    name: &ModName,
    lister: &ModName,
) -> Result<(), AllocError>
    ensures ok { let passes : Name → Bool =
        λ n. if same_name name.now n then true else is_under sets.old.entries n lister.now in
        OnOk result (Places lister.now passes sets.old.entries sets.new.entries) }
    ensures err { OnErr result
        ((n m : Name) → is_under sets.new.entries n m ≡ is_under sets.old.entries n m) }
{
    let copy = copy_name(lister)?;
    match sets.get_mut(name) {
        Some(set) => {
            add(set, copy)?;
            Ok(())
        }
        None => {
            let set = set_of(*sets.allocator(), copy)?;
            sets.insert(copy_name(name)?, set)?;
            Ok(())
        }
    }
}

fn add(set: &mut BTreeSet<ModName>, name: ModName) -> Result<(), AllocError>
    ensures ok { let was = has set.old.keys in
        OnOk result ((m : Name) → has set.new.keys m ≡ (if same_name name m then true else was m)) }
    ensures err { OnErr result (set.new.keys ≡ set.old.keys) }
{
    set.insert(name)?;
    Ok(())
}

fn set_of(alloc: Global, name: ModName) -> Result<BTreeSet<ModName>, AllocError>
    ensures { IfOk result (λ set. (m : Name) → has set.keys m ≡ (if same_name name m then true else false)) }
{
    let mut set = BTreeSet::new(alloc);
    add(&mut set, name)?;
    Ok(set)
}

// Takes the lister away from under a name.
fn take_away(sets: &mut IndexMap<ModName, BTreeSet<ModName>>, name: &ModName, lister: &ModName)
    ensures { let passes : Name → Bool =
        λ n. if same_name name.now n then false else is_under sets.old.entries n lister.now in
        Places lister.now passes sets.old.entries sets.new.entries }
{
    if take_out(sets, name, lister) {
        sets.swap_remove(name);
    }
}

// Takes the lister out of the set under a name, and tells whether it becomes empty.
fn take_out(
    sets: &mut IndexMap<ModName, BTreeSet<ModName>>,
    name: &ModName,
    lister: &ModName,
) -> bool
    ensures places { let passes : Name → Bool =
        λ n. if same_name name.now n then false else is_under sets.old.entries n lister.now in
        Places lister.now passes sets.old.entries sets.new.entries }
    ensures empty { IsTrue result → under sets.new.entries name.now ≡ [] }
{
    match sets.get_mut(name) {
        Some(set) => {
            remove(set, lister);
            set.is_empty()
        }
        None => false,
    }
}

fn remove(set: &mut BTreeSet<ModName>, name: &ModName)
    ensures { (m : Name) → has set.new.keys m
        ≡ (if same_name name.now m then false else has set.old.keys m) }
{
    set.remove(name);
}
