// The pass of one more job, and its hub.
ghost use Rattle.std.specs.Prelude.{◌≡◌, ◌≢◌, IfErr, IfOk};
ghost use Rattle.std.specs.Arc.{arc_value};
ghost use Rattle.hmr_hub.specs.Passes.{IsPassOf, all_given};
ghost use Rattle.crew_plans.specs.Splits.{Divided, IsSpentBy};

use crate::cause::Cause;
use hmr_hub::{Hub, Pass};
use std::alloc::Global;
use std::sync::{Arc, Wait};

/// Splits a pass off for one more job: gives the hub, and the pass. It fails by [`Cause::Spent`] exactly where
/// all numbers of passes were given, and by [`Cause::NoMemory`] where the hub can't be shared once more. It
/// takes no memory, and waits only while other splits come between.
pub fn split_off<R: Wait>(
    rt: &R,
    hub: &Arc<Hub, Global>,
    pass: &mut Pass,
) -> Result<(Arc<Hub, Global>, Pass), Cause>
    requires of { IsPassOf (arc_value hub.now) pass.old }
    ensures of { IsPassOf (arc_value hub.now) pass.new }
    ensures divided { Divided pass.old pass.new }
    ensures own { IfOk result (λ made. arc_value made.0 ≡ arc_value hub.now) }
    ensures half { IfOk result (λ made. IsPassOf (arc_value hub.now) made.1) }
    ensures spent { IsSpentBy (all_given pass.old) (all_given pass.new) result }
    ensures unfailed { IfErr result (λ cause. cause ≢ Cause.Fault) }
{
    let shared = Arc::try_clone(hub)?;
    let half = shared.split(rt, pass)?;
    Ok((shared, half))
}
