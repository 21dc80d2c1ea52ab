// Where the instances are to which a module is linked.
ghost use Rattle.std.specs.Prelude.{◌≡◌, List, Option, ℕ};
ghost use Rattle.instance_urls.specs.declared.plan_id.PlanId.{PlanId};

use crate::plan_id::PlanId;
use hmr_types::ModName;

/// Which instance of each module the instances of a plan are linked to.
pub trait Instances {
    ghost instance_of: { Self → List ℕ → Option PlanId };

    /// The plan that made the instance of a module; None where it is at the plain URL.
    fn instance(&self, name: &ModName) -> Option<PlanId>
        ensures { result ≡ instance_of self.now name.now };
}
