// What the runtime does at answers that touch no instance: nothing, a line, or something with its plan or with
// its invalidations.
ghost use Rattle.std.specs.Option.{option_map};
ghost use Rattle.std.specs.Prelude.{◌≡◌, true, drop, Some, None, IfOk};
ghost use Rattle.update_msgs.specs.declared.message.ClientMsg.{ClientMsg};
ghost use Rattle.core_model.specs.Page.{Plan};
ghost use Rattle.client_model.specs.Answering.{abort_in, ignored, invalidated};
ghost use Rattle.client_model.specs.Answering.{outcome_of, took_refusal, with_cause};
ghost use Rattle.client_model.specs.Requesting.{carry_on, cause_by, request};
ghost use Rattle.client_model.specs.Runtime.{Runtime, nothing, write};
ghost use Rattle.module_language.specs.ModuleLanguage.{module_language};
ghost use Rattle.client_plan.specs.Telling.{cause_lines};
ghost use Rattle.client_plan.specs.UnderWay.{IsUnderWay, cause_of, is_aborted};
ghost use Rattle.client_plan.specs.declared.under_way.UnderWay.{UnderWay};
ghost use Rattle.runtime_state.specs.Becoming.{Becomes};
ghost use Rattle.runtime_state.specs.Standing.{IsSound, Keeps, KeepsWords};

use crate::forcing::put_name;
use client_plan::{Cause, UnderWay, one_line, put};
use hmr_types::{ModName, Text};
use module_graph::copy_name;
use output_lines::{AbortWord, OutLine};
use page_state::Invalidation;
use retained_data::{Bag, Ran};
use runtime_state::HotRuntime;
use std::alloc::AllocError;
use update_msgs::ClientMsg;

/// Nothing happens.
pub fn idle<F: FnOnce(Bag) -> Result<Ran, AllocError> + Drop>(
    runtime: &HotRuntime<F>,
) -> Result<Vec<OutLine>, AllocError>
    ensures { (r : Runtime) → Keeps r runtime.now → IsSound runtime.now
        → IfOk result (λ lines. Becomes (nothing r) runtime.now lines.items) }
{
    Ok(Vec::new(runtime.allocator()))
}

/// A line is told, and nothing else happens.
pub fn tell<F: FnOnce(Bag) -> Result<Ran, AllocError> + Drop>(
    runtime: &HotRuntime<F>,
    line: OutLine,
) -> Result<Vec<OutLine>, AllocError>
    ensures { (r : Runtime) → Keeps r runtime.now → IsSound runtime.now
        → IfOk result (λ lines. Becomes (write line r) runtime.now lines.items) }
{
    one_line(runtime.allocator(), line)
}

/// A fetch found that the plan can't be carried out.
pub fn give_cause<F: FnOnce(Bag) -> Result<Ran, AllocError> + Drop>(
    runtime: &mut HotRuntime<F>,
    cause: Cause,
) -> Result<Vec<OutLine>, AllocError>
    ensures becomes { (r : Runtime) → Keeps r runtime.old → IsSound runtime.old
        → IfOk result (λ lines. Becomes (with_cause (cause_of cause) r) runtime.new lines.items) }
    ensures rest { runtime.new ≡ record runtime.old { plan = runtime.new.plan } }
{
    give_cause_to(&mut runtime.plan, cause);
    Ok(Vec::new(runtime.allocator()))
}

/// What was told is refused.
pub fn refused<F: FnOnce(Bag) -> Result<Ran, AllocError> + Drop>(
    runtime: &mut HotRuntime<F>,
    asked: ClientMsg,
) -> Result<Vec<OutLine>, AllocError>
    ensures becomes { (r : Runtime) → Keeps r runtime.old → IsSound runtime.old
        → IfOk result (λ lines. Becomes (took_refusal asked r) runtime.new lines.items) }
    ensures words { KeepsWords F.post runtime.old → KeepsWords F.post runtime.new }
    ensures format { runtime.new.format ≡ runtime.old.format }
    ensures stopped { runtime.new.stopped ≡ runtime.old.stopped }
{
    match asked {
        ClientMsg::Invalidate { path, .. } => ignored(runtime, path),
        ClientMsg::Hello { .. }
        | ClientMsg::Ask
        | ClientMsg::Fetch { .. }
        | ClientMsg::Applied { .. }
        | ClientMsg::Aborted { .. }
        | ClientMsg::Bye => idle(runtime),
    }
}

/// The plan is given up.
pub fn abort<F: FnOnce(Bag) -> Result<Ran, AllocError> + Drop>(
    runtime: &mut HotRuntime<F>,
) -> Result<Vec<OutLine>, AllocError>
    ensures becomes { (r : Runtime) → Keeps r runtime.old → IsSound runtime.old
        → is_aborted (request module_language r) ≡ true
        → IfOk result (λ lines. Becomes (abort_in r.page.plan module_language r) runtime.new lines.items) }
    ensures rest { runtime.new ≡ record runtime.old { plan = runtime.new.plan } }
{
    let cause = given_up(&mut runtime.plan);
    cause_lines(runtime, cause)
}

// The line of a plan that was given up, where there is a cause.
fn cause_lines<F: FnOnce(Bag) -> Result<Ran, AllocError> + Drop>(
    runtime: &HotRuntime<F>,
    cause: Option<Cause>,
) -> Result<Vec<OutLine>, AllocError>
    ensures { IfOk result
        (λ lines. lines.items ≡ cause_lines runtime.now.page.client (option_map cause_of cause)) }
{
    let alloc = runtime.allocator();
    match cause {
        Some(cause) => one_line(
            alloc,
            OutLine::Aborted {
                client: runtime.page.client,
                outcome: word_of(cause),
            },
        ),
        None => Ok(Vec::new(alloc)),
    }
}

/// An invalidation was taken: its module is forced.
pub fn invalidated<F: FnOnce(Bag) -> Result<Ran, AllocError> + Drop>(
    runtime: &mut HotRuntime<F>,
    name: ModName,
    message: Text,
) -> Result<Vec<OutLine>, AllocError>
    ensures becomes { (r : Runtime) → Keeps r runtime.old → IsSound runtime.old
        → IfOk result (λ lines. Becomes (invalidated name message r) runtime.new lines.items) }
    ensures words { KeepsWords F.post runtime.old → KeepsWords F.post runtime.new }
    ensures format { runtime.new.format ≡ runtime.old.format }
    ensures stopped { runtime.new.stopped ≡ runtime.old.stopped }
{
    let forced = copy_name(&name)?;
    let lines = one_line(
        runtime.allocator(),
        OutLine::Invalidated {
            client: runtime.page.client,
            name,
            message,
        },
    )?;
    put_name(&mut runtime.forced, forced)?;
    drop_first(&mut runtime.page.unsent);
    Ok(lines)
}

// An invalidation was ignored.
fn ignored<F: FnOnce(Bag) -> Result<Ran, AllocError> + Drop>(
    runtime: &mut HotRuntime<F>,
    name: ModName,
) -> Result<Vec<OutLine>, AllocError>
    ensures becomes { (r : Runtime) → Keeps r runtime.old → IsSound runtime.old
        → IfOk result (λ lines. Becomes (ignored name r) runtime.new lines.items) }
    ensures words { KeepsWords F.post runtime.old → KeepsWords F.post runtime.new }
    ensures format { runtime.new.format ≡ runtime.old.format }
    ensures stopped { runtime.new.stopped ≡ runtime.old.stopped }
{
    let lines = one_line(
        runtime.allocator(),
        OutLine::Ignored {
            client: runtime.page.client,
            name,
        },
    )?;
    drop_first(&mut runtime.page.unsent);
    Ok(lines)
}

// The plan under way, where there is one, can't be carried out for this cause.
fn give_cause_to(plan: &mut Option<UnderWay>, cause: Cause)
    ensures none { plan.old ≡ None → plan.new ≡ None }
    ensures some { (u : UnderWay) → plan.old ≡ Some u → plan.new ≡ Some (record u { cause = Some cause }) }
{
    if let Some(plan) = plan {
        put(&mut plan.cause, Some(cause));
    }
}

// The plan under way is given up: gives the cause of it, where there is one.
fn given_up(plan: &mut Option<UnderWay>) -> Option<Cause>
    ensures gone { plan.new ≡ None }
    ensures none { plan.old ≡ None → result ≡ None }
    ensures some { (u : UnderWay) → plan.old ≡ Some u → (r : Runtime) (p : Plan) → IsUnderWay r p u
        → is_aborted (carry_on r.cause module_language p r) ≡ true
        → option_map cause_of result ≡ cause_by r.cause module_language p r }
{
    let cause = take_cause_of(plan);
    put(plan, None);
    cause
}

// Takes out why the plan under way is given up, where there is a plan and that is known.
fn take_cause_of(plan: &mut Option<UnderWay>) -> Option<Cause>
    ensures none { plan.old ≡ None → result ≡ None }
    ensures some { (u : UnderWay) → plan.old ≡ Some u → (r : Runtime) (p : Plan) → IsUnderWay r p u
        → is_aborted (carry_on r.cause module_language p r) ≡ true
        → option_map cause_of result ≡ cause_by r.cause module_language p r }
{
    match plan {
        Some(plan) => plan.take_cause(),
        None => None,
    }
}

// A cause, as its line tells it.
fn word_of(cause: Cause) -> AbortWord
    ensures { result ≡ outcome_of (cause_of cause) }
{
    match cause {
        Cause::Missing(name) => AbortWord::Missing(name),
        Cause::Broken(name) => AbortWord::Broken(name),
        Cause::Unlinked(name, from, export) => AbortWord::Link { name, from, export },
    }
}

// Drops the first, where there is one.
fn drop_first(unsent: &mut Vec<Invalidation>)
    ensures { unsent.new.items ≡ drop 1 unsent.old.items }
{
    if !unsent.is_empty() {
        unsent.remove(0);
    }
}
