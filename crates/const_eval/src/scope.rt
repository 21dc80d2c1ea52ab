// What an expression reads, and what names, keys and members stand for in it.
ghost use Rattle.std.specs.Prelude.{◌≡◌, ◌<◌, ◌++◌, IfOk, Some, length};
ghost use Rattle.std.specs.Option.{option_map};
ghost use Rattle.module_semantics.specs.Entries.{entry_at};
ghost use Rattle.module_semantics.specs.Scope.{export_value, read_bag, read_member, read_name};
ghost use Rattle.const_eval.specs.Places.{held_in, variables};
ghost use Rattle.const_eval.specs.Reads.{scope_of};
ghost use Rattle.const_eval.specs.Stops.{Gives};

use crate::slots::Slots;
use crate::stop::Stop;
use hmr_types::{EvalFault, Name, Slot, Value};
use module_semantics::ModParam;
use retained_data::{Bag, entry_at};
use std::alloc::AllocError;
use std::collections::BTreeMap;

/// What an expression reads.
#[derive(Clone, Copy)]
pub struct Scope<'c, 's> {
    /// The variables of the module, with what they held as the evaluation began.
    pub vars: &'c Slots<'c>,
    /// What variables were given since, by their places.
    pub given: &'s BTreeMap<usize, Slot>,
    /// What its imports held as the evaluation began, after the variables.
    pub imports: &'c Slots<'c>,
    /// The modules given as parameters.
    pub mods: &'c [ModParam],
    pub bag: &'s Bag,
}

/// What the variable at a place holds now.
#[tactic(auto, using(crate::proofs::Variables::later_some, crate::proofs::Variables::later_none))]
pub fn held_at<'a>(vars: &Slots<'a>, given: &'a BTreeMap<usize, Slot>, place: usize) -> &'a Slot
    requires { place < length vars.now }
    ensures { held_in (variables vars.now given.now) (Some place) ≡ Some result.now }
{
    match given.get(&place) {
        Some(slot) => slot,
        None => vars.held_at(place),
    }
}

/// What a variable of this name holds now.
#[tactic(auto, using(crate::proofs::Variables::found_now, crate::proofs::Variables::none_now))]
fn variable_at<'a>(
    vars: &Slots<'a>,
    given: &'a BTreeMap<usize, Slot>,
    name: &Name,
) -> Option<&'a Slot>
    ensures { option_map (λ s. s.now) result ≡ entry_at name.now (variables vars.now given.now) }
{
    match vars.place_of(name) {
        Some(place) => Some(held_at(vars, given, place)),
        None => None,
    }
}

/// What a variable or an import of this name holds.
#[tactic(auto, using(crate::proofs::Lookups::entry_at_both))]
fn slot_at<'a>(scope: &Scope<'a, 'a>, name: &Name) -> Option<&'a Slot>
    ensures { option_map (λ s. s.now) result ≡ entry_at name.now (scope_of scope.now).vars }
{
    match variable_at(scope.vars, scope.given, name) {
        Some(slot) => Some(slot),
        None => scope.imports.slot_at(name),
    }
}

/// A variable or an import, which has to have a value.
pub fn read_name(scope: &Scope, name: &Name) -> Result<Value, Stop>
    ensures { Gives result (read_name name.now (scope_of scope.now).vars) }
{
    match slot_at(scope, name) {
        Some(Slot::Val(value)) => Ok(value.clone()?),
        _ => Err(Stop::Fault(EvalFault::Uninitialised(name.clone()?))),
    }
}

/// A key of the bag, `undefined` where the bag lacks it.
pub fn read_bag(scope: &Scope, key: &Name) -> Result<Value, AllocError>
    ensures { IfOk result (λ r. r ≡ read_bag key.now (scope_of scope.now).bag) }
{
    match scope.bag.get(key) {
        Some(value) => value.clone(),
        None => Ok(Value::Undef),
    }
}

/// An export of a module: `undefined` where it has no such export, a fault where that has no value.
fn read_export(exports: &[(Name, Slot)], name: &Name) -> Result<Value, Stop>
    ensures { Gives result (export_value name.now (entry_at name.now exports.now)) }
{
    match entry_at(exports, name) {
        Some(Slot::Val(value)) => Ok(value.clone()?),
        Some(Slot::Unset) => Err(Stop::Fault(EvalFault::Uninitialised(name.clone()?))),
        None => Ok(Value::Undef),
    }
}

/// An export of the module given as a parameter.
pub fn read_member(scope: &Scope, param: u32, safe: bool, name: &Name) -> Result<Value, Stop>
    ensures { Gives result (read_member param safe name.now (scope_of scope.now).mods) }
{
    match scope.mods.get(param as usize) {
        Some(ModParam::Mod(exports)) => read_export(exports.as_slice(), name),
        _ => {
            if safe {
                Ok(Value::Undef)
            } else {
                Err(Stop::Fault(EvalFault::UndefinedRead))
            }
        }
    }
}
