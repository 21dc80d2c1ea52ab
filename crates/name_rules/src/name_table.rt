// Names where they stand, each found by its characters. A map has for each name the place, from 0, at
// which it stands first.
ghost use Rattle.std.specs.Prelude.{◌≡◌, ◌≤◌, IfOk, OnOk, length, map, take};
ghost use Rattle.raw_trees.specs.Raw.{name_at_of};
ghost use Rattle.module_semantics.specs.NameRules.{has_name, names_of};
ghost use Rattle.module_semantics.specs.Resolving.{place_of};
ghost use Rattle.name_rules.specs.Places.{KeepsFirst, TellsPlaces};

use hmr_types::Name;
use raw_trees::NameAt;
use std::alloc::{AllocError, Global};
use std::collections::BTreeMap;
use std::marker::Model;

/// Names where they stand, which contracts see as the list of them. To find one takes as many
/// comparisons as the logarithm of their number.
#[derive(Drop)]
pub struct NameTable<'a> {
    names: &'a [NameAt],
    places: BTreeMap<Name, u32>,
}

impl<'a> Model for NameTable<'a> {
    ghost use Rattle.std.specs.Prelude.{◌≤◌, List, length, map};
    ghost use Rattle.raw_trees.specs.Raw.{name_at_of};
    ghost use Rattle.module_semantics.specs.Kinds.{NameAt};
    ghost use Rattle.module_semantics.specs.NameRules.{names_of};
    ghost use Rattle.name_rules.specs.Places.{TellsPlaces};

    ghost Value = { List NameAt };

    ghost view = { λ t. map name_at_of t.names.now };

    ghost invariant = { λ t. TellsPlaces t.places.entries (names_of (map name_at_of t.names.now))
        × (length t.names.now ≤ 4294967295) };
}

impl<'a> NameTable<'a> {
    /// A table of these names. It copies each.
    pub fn new(alloc: Global, names: &'a [NameAt]) -> Result<NameTable<'a>, AllocError>
        ensures { IfOk result (λ table. table ≡ map name_at_of names.now) }
    {
        let places = first_places(alloc, names)?;
        Ok(NameTable { names, places })
    }

    /// The names, in order.
    pub fn as_slice(&self) -> &'a [NameAt]
        ensures { map name_at_of result.now ≡ self.now }
    {
        self.names
    }

    /// Whether this is one of the names.
    pub fn has(&self, name: &Name) -> bool
        ensures { result ≡ has_name name.now (names_of self.now) }
    {
        self.places.contains_key(name)
    }

    /// Whether this is one of the names before a place.
    pub fn has_before(&self, place: usize, name: &Name) -> bool
        requires { place ≤ length self.now }
        ensures { result ≡ has_name name.now (names_of (take place self.now)) }
    {
        (self.place_of(name) as usize) < place
    }

    /// The place at which the name stands first, from 0: their number, where it is none of them.
    pub fn place_of(&self, name: &Name) -> u32
        ensures { result ≡ place_of name.now (names_of self.now) }
    {
        match self.places.get(name) {
            Some(place) => *place,
            None => self.names.len() as u32,
        }
    }
}

/// The place at which each name stands first.
fn first_places(alloc: Global, names: &[NameAt]) -> Result<BTreeMap<Name, u32>, AllocError>
    ensures places { IfOk result
        (λ places. TellsPlaces places.entries (names_of (map name_at_of names.now))) }
    ensures few { IfOk result (λ _. length names.now ≤ 4294967295) }
{
    let mut places = BTreeMap::new(alloc);
    let mut place = 0u32;
    for name in names {
        keep_first(&mut places, &name.name, place)?;
        place = place.checked_add(1).ok_or(AllocError)?;
    }
    Ok(places)
}

/// Keeps a place for a name, unless one is kept.
fn keep_first(places: &mut BTreeMap<Name, u32>, name: &Name, place: u32) -> Result<(), AllocError>
    ensures { OnOk result (KeepsFirst name.now place places.old.entries places.new.entries) }
{
    if places.contains_key(name) {
        return Ok(());
    }
    places.insert(name.clone()?, place)?;
    Ok(())
}
