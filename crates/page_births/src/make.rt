// A new instance is made: it isn't run where an instance that it is linked to failed, else it is evaluated
// with the data of its name, and what it registers is registered. It stands on the page, without handlers,
// before the first of them is registered.
ghost use Rattle.std.specs.Prelude.{◌≡◌, ◌<◌, ◌+◌, ◌++◌, ◌^◌, [], suc, None, Some, length, map, IfOk, OnOk};
ghost use Rattle.client_model.specs.Journal.{fault_lines, log_lines};
ghost use Rattle.client_model.specs.Making as model;
ghost use Rattle.client_model.specs.Making.{make, make_run, make_unrun};
ghost use Rattle.const_eval.specs.Answers.{evaluated_seen};
ghost use Rattle.module_language.specs.ModuleLanguage.{bound_in, module_language};
ghost use Rattle.module_semantics.specs.Modules.{module_run};
ghost use Rattle.module_tree.specs.Tree.{module_of};
ghost use Rattle.output_lines.specs.declared.words.FaultPlace.TheVariants as fault_place;
ghost use Rattle.page_births.specs.Births.{Adds, IsBirth, has_failed_link, is_failed};
ghost use Rattle.page_state.specs.Live.{HasNumber, number_of};
ghost use Rattle.page_state.specs.Standing.{Follows, KeepWords};
ghost use Rattle.page_instances.specs.Scopes.{bound_slots, kept_at};
ghost use Rattle.page_instances.specs.Seeing.{binding_of};
ghost use Rattle.retained_data.specs.Bags.{HasBag, bag_of};

use crate::birth::Birth;
use crate::imports::bindings_of;
use crate::register::register_all;
use const_eval::{Evaluated, eval_module};
use handler_table::tables_keep_their_word;
use hmr_types::{EvalFault, ModName, Name, Sequence, Slot, Text};
use output_lines::{FaultPlace, InstanceStatus, OutLine};
use page_instances::{Bound, Instance, instance_at, slots_bound};
use page_state::{Page, tell_fault, tell_log};
use retained_data::{Bag, Ran};
use std::alloc::{AllocError, Global};

/// Whether the instance of a number faulted or wasn't run.
fn is_failed<F>(instances: &[Instance<F>], number: u32) -> bool
    ensures { result ≡ is_failed (kept_at instances.now number) }
{
    match instance_at(instances, number) {
        Some(instance) => match instance.status {
            InstanceStatus::Done => false,
            InstanceStatus::Faulted | InstanceStatus::Unrun => true,
        },
        None => false,
    }
}

/// Whether some link is to an instance that faulted or wasn't run.
fn has_failed_link<F>(instances: &[Instance<F>], links: &[(ModName, u32)]) -> bool
    ensures { result ≡ has_failed_link instances.now links.now }
{
    for link in links {
        if is_failed(instances, link.1) {
            return true;
        }
    }
    false
}

/// The status after an evaluation.
fn status_after(fault: &Option<EvalFault>) -> InstanceStatus
    ensures { result ≡ model.status_after fault.now }
{
    match fault {
        None => InstanceStatus::Done,
        Some(_) => InstanceStatus::Faulted,
    }
}

/// A module gets a new instance, of the page's next number; none of its name may be live. Adds the
/// lines of its evaluation. It fails only where memory runs out; the page can't be used then. It takes
/// time in proportion to the tree and to what its evaluation does.
pub fn make<F: FnOnce(Bag) -> Result<Ran, AllocError> + Drop>(
    page: &mut Page<F>,
    alloc: Global,
    birth: Birth,
    lines: &mut Vec<OutLine>,
) -> Result<(), AllocError>
    requires room { length page.old.instances.items + 1 < 2 ^ 32 }
    requires callable { (f : F) → F.IsAlwaysCallable f }
    requires words { KeepWords F.post page.old }
    ensures count { OnOk result
        (length page.new.instances.items ≡ suc (length page.old.instances.items)) }
    ensures words { OnOk result (KeepWords F.post page.new) }
    ensures live { OnOk result (HasNumber birth.name (Some (suc (length page.old.instances.items)))
        page.old.live page.new.live) }
    ensures follows { (b : model.Birth) → IsBirth b birth page.old
        → number_of page.old.live birth.name ≡ None
        → OnOk result (Follows (make module_language b)
        page.old page.new lines.old.items lines.new.items) }
{
    let bindings = bindings_of(alloc, &birth.name, &birth.tree)?;
    if has_failed_link(&page.instances, birth.links.as_slice()) {
        make_unrun(page, alloc, birth, bindings, lines)?;
        return Ok(());
    }
    make_run(page, alloc, birth, bindings, lines)?;
    Ok(())
}

/// The new instance isn't run, and a line tells it.
fn make_unrun<F: FnOnce(Bag) -> Result<Ran, AllocError> + Drop>(
    page: &mut Page<F>,
    alloc: Global,
    birth: Birth,
    bindings: Sequence<Bound>,
    lines: &mut Vec<OutLine>,
) -> Result<(), AllocError>
    requires room { length page.old.instances.items + 1 < 2 ^ 32 }
    requires bindings { map binding_of bindings ≡ bound_in birth.name (module_of birth.tree) }
    requires words { KeepWords F.post page.old }
    ensures count { OnOk result
        (length page.new.instances.items ≡ suc (length page.old.instances.items)) }
    ensures words { OnOk result (KeepWords F.post page.new) }
    ensures live { OnOk result (HasNumber birth.name (Some (suc (length page.old.instances.items)))
        page.old.live page.new.live) }
    ensures follows { (b : model.Birth) → IsBirth b birth page.old
        → number_of page.old.live birth.name ≡ None
        → OnOk result (Follows (make_unrun b) page.old page.new lines.old.items lines.new.items) }
{
    lines.push(OutLine::Unrun {
        client: page.client,
        name: birth.name.clone()?,
    })?;
    let values = Vec::new(alloc);
    add_instance(page, alloc, birth, bindings, InstanceStatus::Unrun, values)?;
    Ok(())
}

/// The new instance is evaluated with the data of its name, and what it registers is registered.
fn make_run<F: FnOnce(Bag) -> Result<Ran, AllocError> + Drop>(
    page: &mut Page<F>,
    alloc: Global,
    birth: Birth,
    bindings: Sequence<Bound>,
    lines: &mut Vec<OutLine>,
) -> Result<(), AllocError>
    requires room { length page.old.instances.items + 1 < 2 ^ 32 }
    requires bindings { map binding_of bindings ≡ bound_in birth.name (module_of birth.tree) }
    requires words { KeepWords F.post page.old }
    ensures count { OnOk result
        (length page.new.instances.items ≡ suc (length page.old.instances.items)) }
    ensures words { OnOk result (KeepWords F.post page.new) }
    ensures live { OnOk result (HasNumber birth.name (Some (suc (length page.old.instances.items)))
        page.old.live page.new.live) }
    ensures follows { (b : model.Birth) → IsBirth b birth page.old
        → number_of page.old.live birth.name ≡ None
        → OnOk result (Follows (make_run module_language b)
        page.old page.new lines.old.items lines.new.items) }
{
    let evaluated = evaluate(page, alloc, &birth, bindings.as_slice())?;
    let Evaluated {
        fault,
        vars,
        lines: texts,
        registered,
        bag,
    } = evaluated;
    let name = birth.name.clone()?;
    let status = status_after(&fault);
    settle_evaluation(page, &name, texts.as_slice(), fault, bag, lines)?;
    let place = page.instances.len();
    add_instance(page, alloc, birth, bindings, status, vars.into_vec())?;
    register_all(page, alloc, place, &name, registered.into_vec(), lines)?;
    Ok(())
}

/// The evaluation of a new instance that is linked so, with the data of its name; that is then kept
/// nowhere else.
fn evaluate<F: FnOnce(Bag) -> Result<Ran, AllocError> + Drop>(
    page: &mut Page<F>,
    alloc: Global,
    birth: &Birth,
    bindings: &[Bound],
) -> Result<Evaluated, AllocError>
    ensures evaluation { IfOk result (λ e. evaluated_seen e ≡ module_run (module_of birth.now.tree)
        (bound_slots page.old.instances.items birth.now.links bindings.now)
        (bag_of page.old.bags birth.now.name)) }
    ensures taken { HasBag birth.now.name [] page.old.bags page.new.bags }
    ensures rest { page.new ≡ record page.old { bags = page.new.bags } }
{
    let bag = page.bags.take(alloc, &birth.name);
    let links = birth.links.as_slice();
    let imports = slots_bound(alloc, &page.instances, links, bindings)?;
    eval_module(alloc, &birth.tree, &imports, bag)
}

/// What the evaluation of an instance of this name left is settled: its lines are told, and its bag is
/// kept.
fn settle_evaluation<F: FnOnce(Bag) -> Result<Ran, AllocError> + Drop>(
    page: &mut Page<F>,
    name: &ModName,
    texts: &[Text],
    fault: Option<EvalFault>,
    bag: Bag,
    lines: &mut Vec<OutLine>,
) -> Result<(), AllocError>
    ensures bags { OnOk result (HasBag name.now bag page.old.bags page.new.bags) }
    ensures rest { OnOk result (page.new ≡ record page.old { bags = page.new.bags }) }
    ensures lines { OnOk result (lines.new.items ≡ lines.old.items
        ++ (log_lines page.old.client name.now texts.now
        ++ fault_lines page.old.client name.now fault_place.Module fault)) }
{
    tell_log(lines, page.client, name, texts)?;
    tell_fault(lines, page.client, name, FaultPlace::Module, fault)?;
    page.bags.put(name.clone()?, bag)?;
    Ok(())
}

/// A new instance without handlers, live under its name.
fn add_instance<F: FnOnce(Bag) -> Result<Ran, AllocError> + Drop>(
    page: &mut Page<F>,
    alloc: Global,
    birth: Birth,
    bindings: Sequence<Bound>,
    status: InstanceStatus,
    values: Vec<(Name, Slot)>,
) -> Result<(), AllocError>
    requires room { length page.old.instances.items + 1 < 2 ^ 32 }
    requires bindings { map binding_of bindings ≡ bound_in birth.name (module_of birth.tree) }
    requires words { KeepWords F.post page.old }
    ensures words { OnOk result (KeepWords F.post page.new) }
    ensures adds { OnOk result (Adds birth status values.items page.old page.new) }
{
    tables_keep_their_word::<F>();
    let Birth {
        name,
        version,
        exports,
        links,
        tree: _,
    } = birth;
    let number = page.instances.len() as u32 + 1;
    page.live.put(name.clone()?, number)?;
    let instance = Instance::new(
        alloc, name, version, exports, links, bindings, status, values,
    );
    if let Err(refused) = page.instances.push(instance) {
        refused.value.discard();
        return Err(AllocError);
    }
    Ok(())
}
