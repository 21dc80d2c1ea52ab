// Names in a row, each once, with a map from each name to its place. So a name is found, put to another
// place and taken out in the time of a few look-ups, and none of that takes memory.
ghost use Rattle.std.specs.Prelude.{◌≡◌, ◌+◌, ◌-◌, ◌<◌, ◌≤◌, ◌++◌, ◌∷◌, []};
ghost use Rattle.std.specs.Prelude.{ℕ, None, Some, IsSome, OnErr, OnOk, if◌then◌else◌, length, take};
ghost use Rattle.std.specs.BTreeMap.{IsOrdered};
ghost use Rattle.std.specs.Cmp.Lexicographic.{slice_cmp};
ghost use Rattle.std.specs.List.{swap};
ghost use Rattle.std.specs.Option.{option_map};
ghost use Rattle.std.specs.Ordering.{nat_cmp};
ghost use Rattle.core_model.specs.Names.{Name, at, same_name};
ghost use Rattle.client_queue.specs.Row.{IsRow, IsSetAt, exchanged};

use hmr_types::ModName;
use std::alloc::{AllocError, Global};
use std::collections::BTreeMap;

/// Names in a row, each once, and the place of each.
#[derive(Drop)]
pub(crate) struct NameRow {
    names: Vec<ModName>,
    places: BTreeMap<ModName, usize>,
}

impl NameRow {
    /// A row of no names.
    pub(crate) fn new(alloc: Global) -> NameRow
        ensures row { IsRow result }
        ensures places { result.places.entries ≡ [] }
        ensures names { result.names.items ≡ [] }
    {
        NameRow {
            names: Vec::new(alloc),
            places: BTreeMap::new(alloc),
        }
    }

    /// The place of a name, where it is in the row.
    pub(crate) fn place(&self, name: &ModName) -> Option<usize>
        ensures { result ≡ at self.now.places.entries name.now }
    {
        self.places.get(name).copied()
    }

    /// The first names, as many as the count.
    pub(crate) fn front(&self, count: usize) -> &[ModName]
        requires { count ≤ length self.now.names.items }
        ensures { result.now ≡ take count self.now.names.items }
    {
        &self.names[..count]
    }

    /// Puts a name at the end that isn't in the row. A refusal changes nothing.
    pub(crate) fn push(&mut self, name: ModName) -> Result<(), AllocError>
        requires row { IsRow self.old }
        requires unknown { at self.old.places.entries name ≡ None }
        ensures row { IsRow self.new }
        ensures places { OnOk result
            (IsSetAt name
            (Some (length self.old.names.items)) self.old.places.entries self.new.places.entries) }
        ensures names { OnOk result (self.new.names.items ≡ self.old.names.items ++ name ∷ []) }
        ensures places_kept { OnErr result (self.new.places.entries ≡ self.old.places.entries) }
        ensures names_kept { OnErr result (self.new.names.items ≡ self.old.names.items) }
    {
        let copy = name.clone()?;
        let place = self.names.len();
        self.names.reserve(1)?;
        self.places.insert(name, place)?;
        self.names.push(copy)?;
        Ok(())
    }

    /// Two names change places.
    pub(crate) fn exchange(&mut self, i: usize, j: usize)
        requires row { IsRow self.old }
        requires i_within { i < length self.old.names.items }
        requires j_within { j < length self.old.names.items }
        ensures row { IsRow self.new }
        ensures places { (m : Name) → at self.new.places.entries m
            ≡ option_map (exchanged i j) (at self.old.places.entries m) }
        ensures names { self.new.names.items ≡ swap self.old.names.items i j }
    {
        self.names.swap(i, j);
        set_place(&mut self.places, &self.names[i], i);
        set_place(&mut self.places, &self.names[j], j);
    }

    /// Takes the name out that stands at this place: the last name comes to its place.
    pub(crate) fn remove(&mut self, name: &ModName, place: usize)
        requires row { IsRow self.old }
        requires there { at self.old.places.entries name.now ≡ Some place }
        ensures row { IsRow self.new }
        ensures places { (m : Name) → at self.new.places.entries m
            ≡ (if same_name name.now m then None
            else option_map (exchanged place (length self.old.names.items - 1))
            (at self.old.places.entries m)) }
        ensures len { length self.new.names.items + 1 ≡ length self.old.names.items }
    {
        let last = self.names.len() - 1;
        self.exchange(place, last);
        self.names.pop();
        self.places.remove(name);
    }
}

// Gives a name of the map this place.
fn set_place(places: &mut BTreeMap<ModName, usize>, name: &ModName, place: usize)
    requires { IsSome (at places.old.entries name.now) }
    ensures places { IsSetAt name.now (Some place) places.old.entries places.new.entries }
    ensures ordered { IsOrdered (slice_cmp nat_cmp) places.old → IsOrdered (slice_cmp nat_cmp) places.new }
{
    if let Some(old) = places.get_mut(name) {
        *old = place;
    }
}
