// A text came for the plan under way: it is staged, and the plan goes on from where it stood; or it can't be
// read, and the plan can't be carried out.
ghost use Rattle.std.specs.Prelude.{◌≡◌, ◌≤◌, true, length, Some, None, IfOk, OnOk};
ghost use Rattle.update_msgs.specs.Writable.{IsVersion};
ghost use Rattle.update_msgs.specs.declared.message.ServerMsg.TheVariants as msg;
ghost use Rattle.client_model.specs.Answering.{stage_in};
ghost use Rattle.client_model.specs.Expecting.{is_answer};
ghost use Rattle.client_model.specs.Requesting.{request};
ghost use Rattle.client_model.specs.Runtime.{Runtime};
ghost use Rattle.module_language.specs.ModuleLanguage.{module_language};
ghost use Rattle.client_plan.specs.declared.under_way.UnderWay.{UnderWay};
ghost use Rattle.runtime_state.specs.Becoming.{Becomes};
ghost use Rattle.plan_steps.specs.Fetching.{IsStagedIn};
ghost use Rattle.runtime_state.specs.Standing.{IsSound, Keeps};

use client_plan::UnderWay;
use fetched_texts::fetched;
use hmr_types::{ModName, Text, Ver};
use module_graph::View;
use output_lines::OutLine;
use retained_data::{Bag, Ran};
use runtime_state::HotRuntime;
use std::alloc::{AllocError, Global};

/// The text of the module that was asked for came. It takes time linear in the text, and that of what
/// the plan's walk meets next.
pub fn stage<F: FnOnce(Bag) -> Result<Ran, AllocError> + Drop>(
    runtime: &mut HotRuntime<F>,
    name: ModName,
    version: Ver,
    text: Text,
) -> Result<Vec<OutLine>, AllocError>
    requires short { length text ≤ 4294967294 }
    ensures becomes { (r : Runtime) → Keeps r runtime.old → IsSound runtime.old → IsVersion version
        → is_answer runtime.old.loaded (request module_language r) (msg.Text name version text) ≡ true
        → IfOk result
        (λ lines.
        Becomes (stage_in r.page.plan module_language name version text r) runtime.new lines.items) }
    ensures rest { runtime.new ≡ record runtime.old { plan = runtime.new.plan } }
{
    let alloc = runtime.allocator();
    let roots = runtime.roots.as_slice();
    stage_for(
        &mut runtime.plan,
        alloc,
        roots,
        &runtime.view,
        &name,
        version,
        &text,
    )?;
    Ok(Vec::new(alloc))
}

// The text of the module that the plan under way asked for, over a page of these roots and modules. With no
// plan under way it is of no account.
fn stage_for(
    plan: &mut Option<UnderWay>,
    alloc: Global,
    roots: &[ModName],
    view: &View,
    name: &ModName,
    version: Ver,
    text: &Text,
) -> Result<(), AllocError>
    requires short { length text.now ≤ 4294967294 }
    ensures none { plan.old ≡ None → OnOk result (plan.new ≡ None) }
    ensures staged { (u : UnderWay) → plan.old ≡ Some u
        → OnOk result (IsStagedIn u roots.now view.now name.now version text.now plan.new) }
{
    match plan {
        Some(plan) => fetched(plan, alloc, roots, view, name, version, text),
        None => Ok(()),
    }
}
