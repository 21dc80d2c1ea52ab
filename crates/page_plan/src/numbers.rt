// The new instances of a plan: which modules get one, and the number of each.
ghost use Rattle.std.specs.Prelude.{◌≡◌, ◌+◌, ◌^◌, ◌<◌};
ghost use Rattle.std.specs.Prelude.{filter, length, not, suc, Some, None, if◌then◌else◌, IfOk};
ghost use Rattle.std.specs.Option.{option_or};
ghost use Rattle.core_model.specs.Names.{Name, has};
ghost use Rattle.page_plan.specs.Numbers.{new_number};
ghost use Rattle.client_model.specs.Linking.{is_kept, place_of};

use crate::firsts::keep_first;
use crate::plan::Plan;
use hmr_types::{ModName, PlanKind};
use module_graph::{View, copy_name};
use std::alloc::{AllocError, Global};
use std::collections::BTreeMap;
use std::marker::Model;

/// The modules of a walk that get a new instance, in the walk's order: those that the plan doesn't keep.
pub fn new_names(
    alloc: Global,
    plan: &Plan,
    view: &View,
    order: &[ModName],
) -> Result<Vec<ModName>, AllocError>
    ensures { IfOk result
        (λ names. names.items ≡ filter (λ n. not (is_kept plan.now view.now n)) order.now) }
{
    let mut names = Vec::new(alloc);
    for name in order {
        if !is_kept(plan, view, name) {
            names.push(copy_name(name)?)?;
        }
    }
    Ok(names)
}

// Whether the plan keeps the page's module of this name.
fn is_kept(plan: &Plan, view: &View, name: &ModName) -> bool
    ensures { result ≡ is_kept plan.now view.now name.now }
{
    match plan.kind() {
        PlanKind::Load | PlanKind::Reload => false,
        PlanKind::Update => !plan.replaces(name) && view.get(name).is_some(),
    }
}

/// The numbers that the new instances of a plan get, by name: one after another behind those that were
/// made, in order.
#[derive(Drop)]
pub struct Numbers {
    numbers: BTreeMap<ModName, u32>,
}

impl Model for Numbers {
    ghost use Rattle.page_plan.specs.Numbers.{NewNumbers};

    ghost Value = { NewNumbers };

    ghost view = { λ n. n.numbers.entries };
}

impl Numbers {
    /// The numbers of the new instances of these names, where so many instances were made before.
    pub fn of(alloc: Global, made: u32, names: &[ModName]) -> Result<Numbers, AllocError>
        requires { made + length names.now < 2 ^ 32 }
        ensures { (n : Name) → IfOk result
            (λ numbers. new_number numbers n
            ≡ (if has names.now n then Some (suc made + place_of names.now n) else None)) }
    {
        let mut numbers = BTreeMap::new(alloc);
        let mut number = made;
        for name in names {
            number += 1;
            keep_first(&mut numbers, name, number)?;
        }
        Ok(Numbers { numbers })
    }

    /// The number of the new instance of this name, None where it gets none. It takes time in proportion
    /// to the logarithm of the number of names.
    pub fn get(&self, name: &ModName) -> Option<u32>
        ensures { result ≡ new_number self.now name.now }
    {
        self.numbers.get(name).copied()
    }

    /// The number of the instance of this name that is live once the plan is applied, where the live one
    /// has this number now.
    pub fn after(&self, name: &ModName, live: Option<u32>) -> Option<u32>
        ensures { result ≡ option_or (new_number self.now name.now) live }
    {
        match self.get(name) {
            Some(number) => Some(number),
            None => live,
        }
    }
}
