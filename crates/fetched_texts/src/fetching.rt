// A text came for the plan under way: it is read, and the plan goes on from where it stood; or it can't be
// read, and the plan can't be carried out.
ghost use Rattle.std.specs.Prelude.{◌≡◌, ◌≤◌, Bool, Some, length, OnOk};
ghost use Rattle.update_msgs.specs.Writable.{IsVersion};
ghost use Rattle.core_model.specs.Page.{Plan};
ghost use Rattle.client_model.specs.Linking.{next_needed};
ghost use Rattle.client_model.specs.Runtime.{Runtime};
ghost use Rattle.module_language.specs.ModuleLanguage.{module_language};
ghost use Rattle.client_plan.specs.Planned.{IsPlanned};
ghost use Rattle.client_plan.specs.UnderWay.{IsFetched, IsUnderWay};

use crate::reading::read;
use client_plan::{Cause, UnderWay, put};
use hmr_types::{ModName, Text, Ver};
use module_graph::{View, copy_name};
use std::alloc::{AllocError, Global};

/// The text of the module that the plan needs came, over a page of these roots and modules: the text is
/// read, and the plan goes on from where it stood; or it can't be read, and the plan can't be carried out.
/// It takes time linear in the text, and that of what the plan's walk meets next; where the walk is spared
/// and the text keeps the module's imports, time linear in the text and in the exports of what it imports.
/// It fails only where memory runs out; the plan is then of no more use.
pub fn fetched(
    plan: &mut UnderWay,
    alloc: Global,
    roots: &[ModName],
    view: &View,
    name: &ModName,
    version: Ver,
    text: &Text,
) -> Result<(), AllocError>
    requires short { length text.now ≤ 4294967294 }
    ensures under_way { (r : Runtime) (p : Plan) → r.roots ≡ roots.now → r.page.view ≡ view.now
        → IsUnderWay r p plan.old → next_needed p r ≡ Some name.now
        → OnOk result (IsFetched (module_language.transformed name.now text.now)
        r p name.now version text.now plan.new) }
    ensures planned { (loaded : Bool) → IsPlanned loaded plan.old → IsVersion version
        → OnOk result (IsPlanned loaded plan.new) }
{
    match read(alloc, name, text.as_str().as_bytes())? {
        Some(found) => plan.add_text(alloc, roots, view, name, version, found),
        None => {
            let cause = Cause::Broken(copy_name(name)?);
            put(&mut plan.cause, Some(cause));
            Ok(())
        }
    }
}
