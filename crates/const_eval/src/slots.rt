// Names with what they held as an evaluation began, in two parts, each found by its name: by an index, or
// by a walk. To make an index takes a copy of each name, so it pays where many names are looked up.
ghost use Rattle.std.specs.Prelude.{◌≡◌, ◌<◌, ◌++◌, IfOk, IfSome, Some, length, slice_get};
ghost use Rattle.std.specs.Option.{option_map};
ghost use Rattle.module_semantics.specs.Entries.{entry_at};
ghost use Rattle.const_eval.specs.Places.{TellsPlaces, held_in, place_among};

use hmr_types::{Name, Slot};
use std::alloc::{AllocError, Global};
use std::collections::BTreeMap;
use std::marker::Model;

/// Names with what they hold, which contracts see as the list of them: those of the first part, and behind
/// them those of the second.
#[derive(Drop)]
pub struct Slots<'a> {
    first: &'a [(Name, Slot)],
    second: &'a [(Name, Slot)],
    /// The first place of each name, where there is an index.
    places: Option<BTreeMap<Name, usize>>,
}

impl<'a> Model for Slots<'a> {
    ghost use Rattle.std.specs.Prelude.{◌++◌, ℕ, List, IfSome};
    ghost use Rattle.hmr_types.specs.declared.value.Slot.{Slot};
    ghost use Rattle.const_eval.specs.Places.{TellsPlaces};

    ghost Value = { List (List ℕ × Slot) };

    ghost view = { λ s. s.first.now ++ s.second.now };

    ghost invariant = { λ s. IfSome s.places (λ places. TellsPlaces places (s.first.now ++ s.second.now)) };
}

impl<'a> Slots<'a> {
    /// Names that are found by a walk.
    pub fn walked(first: &'a [(Name, Slot)], second: &'a [(Name, Slot)]) -> Slots<'a>
        ensures { result ≡ first.now ++ second.now }
    {
        Slots {
            first,
            second,
            places: None,
        }
    }

    /// Names that are found by an index, in as many comparisons as the logarithm of their number. It copies
    /// each name.
    pub fn indexed(
        alloc: Global,
        first: &'a [(Name, Slot)],
        second: &'a [(Name, Slot)],
    ) -> Result<Slots<'a>, AllocError>
        ensures { IfOk result (λ slots. slots ≡ first.now ++ second.now) }
    {
        let places = index_of(alloc, first, second)?;
        Ok(Slots {
            first,
            second,
            places: Some(places),
        })
    }

    /// The first place of a name, None where it isn't there.
    pub fn place_of(&self, name: &Name) -> Option<usize>
        ensures place { result ≡ place_among name.now self.now }
        ensures there { IfSome result (λ place. place < length self.now) }
    {
        first_place(self.first, self.second, &self.places, name)
    }

    /// What is held at a place.
    #[tactic(auto, using(crate::proofs::Lookups::got_held))]
    pub fn held_at(&self, place: usize) -> &'a Slot
        requires { place < length self.now }
        ensures { held_in self.now (Some place) ≡ Some result.now }
    {
        &entry_in(self.first, self.second, place).1
    }

    /// What a name holds, None where it isn't there.
    #[tactic(auto, using(crate::proofs::Lookups::found_some, crate::proofs::Lookups::found_none))]
    pub fn slot_at(&self, name: &Name) -> Option<&'a Slot>
        ensures { option_map (λ s. s.now) result ≡ entry_at name.now self.now }
    {
        match self.place_of(name) {
            Some(place) => Some(self.held_at(place)),
            None => None,
        }
    }
}

/// The entry at a place among both parts.
#[tactic(auto, using(crate::proofs::Lookups::in_first, crate::proofs::Lookups::in_second))]
fn entry_in<'a>(
    first: &'a [(Name, Slot)],
    second: &'a [(Name, Slot)],
    place: usize,
) -> &'a (Name, Slot)
    requires { place < length (first.now ++ second.now) }
    ensures { slice_get (first.now ++ second.now) place ≡ Some result.now }
{
    if place < first.len() {
        &first[place]
    } else {
        &second[place - first.len()]
    }
}

/// The first place of a name, by the index where there is one.
#[tactic(auto, using(crate::proofs::Lookups::index_tells))]
fn first_place(
    first: &[(Name, Slot)],
    second: &[(Name, Slot)],
    places: &Option<BTreeMap<Name, usize>>,
    name: &Name,
) -> Option<usize>
    requires { IfSome places.now (λ index. TellsPlaces index (first.now ++ second.now)) }
    ensures place { result ≡ place_among name.now (first.now ++ second.now) }
    ensures there { IfSome result (λ place. place < length (first.now ++ second.now)) }
{
    match places {
        Some(places) => places.get(name).copied(),
        None => walk_both(first, second, name),
    }
}

/// The first place of a name among both parts, by a walk.
fn walk_both(first: &[(Name, Slot)], second: &[(Name, Slot)], name: &Name) -> Option<usize>
    ensures { result ≡ place_among name.now (first.now ++ second.now) }
{
    match walk_to(first, name) {
        Some(place) => Some(place),
        None => match walk_to(second, name) {
            Some(place) => Some(first.len() + place),
            None => None,
        },
    }
}

/// The first place of a name, by a walk.
#[tactic(auto, unfolding(crate::specs::Places::place_among), using(crate::proofs::Lookups::from_next, crate::proofs::Lookups::place_there))]
fn walk_to(entries: &[(Name, Slot)], name: &Name) -> Option<usize>
    ensures place { result ≡ place_among name.now entries.now }
    ensures there { IfSome result (λ place. place < length entries.now) }
{
    for (place, entry) in entries.iter().enumerate() {
        if entry.0 == *name {
            return Some(place);
        }
    }
    None
}

/// The first place of each name.
fn index_of(
    alloc: Global,
    first: &[(Name, Slot)],
    second: &[(Name, Slot)],
) -> Result<BTreeMap<Name, usize>, AllocError>
    ensures { IfOk result (λ places. TellsPlaces places (first.now ++ second.now)) }
{
    let mut places = BTreeMap::new(alloc);
    let mut place = first.len() + second.len();
    while place > 0 {
        place -= 1;
        places.insert(entry_in(first, second, place).0.clone()?, place)?;
    }
    Ok(places)
}
