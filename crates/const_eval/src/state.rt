// What an evaluation makes as it goes, and how each step adds to it.
ghost use Rattle.std.specs.Prelude.{◌≡◌, ℕ, List, IsSome};
ghost use Rattle.module_semantics.specs.Bodies.{add_invalidation, add_line, assign, keep, opening, scope_of};
ghost use Rattle.module_semantics.specs.Modules.{declare};
ghost use Rattle.hmr_types.specs.declared.value.Slot.{Slot};
ghost use Rattle.const_eval.specs.Places.{place_among, variables};
ghost use Rattle.const_eval.specs.Reads.{scope_of as scope_meant};
ghost use Rattle.const_eval.specs.States.{context_of, state_from, state_of};
ghost use Rattle.const_eval.specs.Stops.{Leaves};

use crate::lines::line_of;
use crate::scope::{Scope, held_at};
use crate::slots::Slots;
use crate::stop::Stop;
use hmr_types::{EvalFault, Name, Slot, Text, Value};
use module_semantics::{ModParam, Registered};
use retained_data::{Bag, BagFault};
use std::alloc::Global;
use std::collections::BTreeMap;

/// What an evaluation has made so far.
#[derive(Drop)]
pub struct State {
    /// What variables were given, by their places.
    pub given: BTreeMap<usize, Slot>,
    pub bag: Bag,
    pub lines: Vec<Text>,
    pub changes: Vec<(Name, Value)>,
    pub invalidations: Vec<Text>,
    pub registered: Vec<Registered>,
}

/// What stays as it is while statements run.
#[derive(Clone, Copy)]
pub struct Context<'c> {
    /// The variables, with what they held at first.
    pub vars: &'c Slots<'c>,
    pub imports: &'c Slots<'c>,
    pub mods: &'c [ModParam],
}

/// What a step came to: the end of the evaluation, if it ended there.
pub type Step = Result<(), Stop>;

/// Before anything ran.
#[tactic(auto, using(crate::proofs::Variables::at_first))]
pub fn opening(alloc: Global, bag: Bag) -> State
    ensures { (first : List (List ℕ × Slot)) → state_from first result ≡ opening first bag }
{
    State {
        given: BTreeMap::new(alloc),
        bag,
        lines: Vec::new(alloc),
        changes: Vec::new(alloc),
        invalidations: Vec::new(alloc),
        registered: Vec::new(alloc),
    }
}

/// What an expression reads here.
pub fn reads<'c, 's>(context: &Context<'c>, state: &'s State) -> Scope<'c, 's>
    ensures { scope_meant result ≡ scope_of (context_of context.now) (state_of context.now state.now) }
{
    Scope {
        vars: context.vars,
        given: &state.given,
        imports: context.imports,
        mods: context.mods,
        bag: &state.bag,
    }
}

/// Adds a line of values.
pub fn add_line(alloc: Global, values: &[Value], state: &mut State) -> Step
    ensures { (first : List (List ℕ × Slot))
        → Leaves result (state_from first state.new) (add_line (state_from first state.old) values.now) }
{
    state.lines.push(line_of(alloc, values)?)?;
    Ok(())
}

/// Gives a declared name its value.
#[tactic(auto, using(crate::proofs::Variables::given_later))]
pub fn declare(name: &Name, value: Value, context: &Context, state: &mut State) -> Step
    requires declared { IsSome (place_among name.now context.now.vars.now) }
    ensures { Leaves result (state_of context.now state.new)
        (declare name.now (state_of context.now state.old) value) }
{
    match context.vars.place_of(name) {
        Some(place) => state.given.insert(place, Slot::Val(value))?,
        None => unreachable!(),
    };
    Ok(())
}

/// Assigns a variable, which has to have a value already.
#[tactic(auto, using(crate::proofs::Variables::given_later, crate::proofs::Variables::found_now, crate::proofs::Variables::none_now))]
pub fn assign(name: &Name, value: Value, context: &Context, state: &mut State) -> Step
    ensures { Leaves result (state_of context.now state.new)
        (assign name.now (state_of context.now state.old) value) }
{
    let Some(place) = context.vars.place_of(name) else {
        return Err(Stop::Fault(EvalFault::Uninitialised(name.clone()?)));
    };
    let Slot::Val(_) = held_at(context.vars, &state.given, place) else {
        return Err(Stop::Fault(EvalFault::Uninitialised(name.clone()?)));
    };
    state.given.insert(place, Slot::Val(value.clone()?))?;
    state.changes.push((name.clone()?, value))?;
    Ok(())
}

/// Keeps a value at a key of the bag.
pub fn keep(key: &Name, value: Value, state: &mut State) -> Step
    ensures { (first : List (List ℕ × Slot))
        → Leaves result (state_from first state.new) (keep key.now (state_from first state.old) value) }
{
    match state.bag.set(key.clone()?, value) {
        Ok(()) => Ok(()),
        Err(BagFault::Full) => Err(Stop::Fault(EvalFault::BagFull)),
        Err(BagFault::NoMemory) => Err(Stop::NoMemory),
    }
}

/// Adds an invalidation with this message.
pub fn add_invalidation(message: Text, state: &mut State) -> Step
    ensures { (first : List (List ℕ × Slot))
        → Leaves result (state_from first state.new)
        (add_invalidation (state_from first state.old) message) }
{
    state.invalidations.push(message)?;
    Ok(())
}
