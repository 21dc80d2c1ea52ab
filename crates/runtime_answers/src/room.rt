// Whether there is room for the instances of a plan.
ghost use Rattle.std.specs.Prelude.{◌≡◌, ◌+◌, true, false, length, nat_lt};
ghost use Rattle.hmr_types.specs.declared.limits.TheConstants.{INSTANCES};
ghost use Rattle.client_model.specs.Requesting.{request};
ghost use Rattle.client_model.specs.Runtime.{Runtime};
ghost use Rattle.client_model.specs.Taking.{is_applied, is_too_many, made_by_plan};
ghost use Rattle.module_language.specs.ModuleLanguage.{module_language};
ghost use Rattle.client_plan.specs.UnderWay.{is_applied_told, untold};
ghost use Rattle.runtime_state.specs.Standing.{HasRoom, Keeps, count_of};

use hmr_types::limits::INSTANCES;
use retained_data::{Bag, Ran};
use runtime_state::HotRuntime;
use std::alloc::AllocError;
use update_msgs::{ClientMsg, ServerMsg};

/// Whether the answer is one at which a plan is applied, and that would make more instances than a client
/// may have.
pub fn overfills<F: FnOnce(Bag) -> Result<Ran, AllocError> + Drop>(
    runtime: &HotRuntime<F>,
    asked: &ClientMsg,
    msg: &ServerMsg,
) -> bool
    ensures many { (r : Runtime) → Keeps r runtime.now → untold (request module_language r) ≡ asked.now
        → result ≡ is_too_many asked.now msg.now r }
    ensures room { result ≡ false → is_applied asked.now msg.now ≡ true → HasRoom runtime.now }
{
    if !is_applied(asked, msg) {
        return false;
    }
    is_full(runtime)
}

// Whether the plan, where it is applied, would make more instances than a client may have.
fn is_full<F: FnOnce(Bag) -> Result<Ran, AllocError> + Drop>(runtime: &HotRuntime<F>) -> bool
    ensures many { (r : Runtime) → Keeps r runtime.now → is_applied_told (request module_language r) ≡ true
        → result ≡ nat_lt INSTANCES (length r.instances + made_by_plan r.page.plan r) }
    ensures room { result ≡ false → HasRoom runtime.now }
{
    is_over(runtime.page.instances.len(), made(runtime))
}

// How many instances the plan makes, where it is told to be applied.
fn made<F: FnOnce(Bag) -> Result<Ran, AllocError> + Drop>(runtime: &HotRuntime<F>) -> usize
    ensures made { (r : Runtime) → Keeps r runtime.now → is_applied_told (request module_language r) ≡ true
        → result ≡ made_by_plan r.page.plan r }
    ensures count { result ≡ count_of runtime.now.plan }
{
    match &runtime.plan {
        Some(plan) => plan.count(),
        None => 0,
    }
}

// Whether so many instances, and so many more, are more than a client may have.
fn is_over(made: usize, more: usize) -> bool
    ensures { result ≡ nat_lt INSTANCES (made + more) }
{
    more > INSTANCES || made > INSTANCES - more
}

// Whether a plan that was told to be applied is taken note of.
fn is_applied(asked: &ClientMsg, msg: &ServerMsg) -> bool
    ensures { result ≡ is_applied asked.now msg.now }
{
    matches!(asked, ClientMsg::Applied { .. }) && matches!(msg, ServerMsg::Done)
}
