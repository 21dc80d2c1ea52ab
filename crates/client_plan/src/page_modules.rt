// The page's modules become those of a plan for which all is fetched.
ghost use Rattle.std.specs.Prelude.{◌≡◌, true, OnOk};
ghost use Rattle.core_model.specs.Names.{names_of, rising};
ghost use Rattle.core_model.specs.Page.{Plan, new_view};
ghost use Rattle.client_model.specs.Runtime.{Runtime};
ghost use Rattle.page_plan.specs.Plans.{IsSamePlan};
ghost use Rattle.client_plan.specs.UnderWay.{IsReady};
ghost use Rattle.client_plan.specs.declared.under_way.Next.TheVariants.{Finish};
ghost use Rattle.client_plan.specs.declared.under_way.Ready.{Ready};

use crate::putting::put;
use crate::renewing::renew;
use crate::under_way::{Modules, Next, Ready, UnderWay};
use module_graph::View;
use page_plan::Plan;
use std::alloc::AllocError;
use std::mem;

impl UnderWay {
    /// These modules of the page become those of the plan, where all is fetched. Where none comes to the page,
    /// it takes time in proportion to the new instances and to what their modules import and accept. It
    /// fails only where memory runs out; the modules are then of no more use.
    pub fn renew(&mut self, view: &mut View) -> Result<(), AllocError>
        ensures { (r : Runtime) (p : Plan) (ready : Ready) → r.page.view ≡ view.old
            → rising (names_of view.old) ≡ true → self.old.next ≡ Finish ready → IsReady r p ready
            → IsSamePlan p self.old.plan → OnOk result (view.new ≡ new_view r.roots p r.page.view) }
    {
        match &mut self.next {
            Next::Fetch(_) => Ok(()),
            Next::Finish(ready) => ready.renew(view, &self.plan),
        }
    }
}

impl Ready {
    // These modules of the page become those of the plan.
    fn renew(&mut self, view: &mut View, plan: &Plan) -> Result<(), AllocError>
        ensures { (r : Runtime) (p : Plan) → r.page.view ≡ view.old → rising (names_of view.old) ≡ true
            → IsReady r p self.old → IsSamePlan p plan.now
            → OnOk result (view.new ≡ new_view r.roots p r.page.view) }
    {
        match mem::replace(&mut self.modules, Modules::Renewed) {
            Modules::Anew(made) => {
                put(view, made);
                Ok(())
            }
            Modules::Renewed => renew(view, plan, &self.names),
        }
    }
}
