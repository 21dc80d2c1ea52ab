// The end of a live server: the passes of its jobs become one, whose transcript is recorded.
ghost use Rattle.std.specs.Prelude.{◌≡◌, All};
ghost use Rattle.std.specs.Arc.{arc_value};
ghost use Rattle.core_model.specs.Roots.{AreRoots};
ghost use Rattle.hmr_hub.specs.Passes.{IsPassOf, roots_of};
ghost use Rattle.hmr_hub.specs.Moves.{KnowsOwn};
ghost use Rattle.live_server.specs.Serving.{HasJoined, HasRecord};

use crate::recording::put_record;
use hmr_hub::Pass;
use live_context::{Context, LivePlan};
use serve_reports::wind_up;
use std::sync::Wait;

/// Joins the passes of the jobs into a pass, and gives the record of the transcript that this one has then
/// seen, where the plan wants it and there is memory for it. It waits.
pub(crate) fn wind_up_all<R: Wait, S: Drop>(
    context: &Context<R, S>,
    plan: &LivePlan,
    pass: &mut Pass,
    passes: Vec<Pass>,
) -> Option<Vec<u8>>
    requires of { IsPassOf (arc_value context.now.hub) pass.old }
    requires knows { KnowsOwn pass.old }
    requires each_of { All (IsPassOf (arc_value context.now.hub)) passes.items }
    requires are_roots { AreRoots plan.now.roots.now }
    requires roots { roots_of pass.old ≡ plan.now.roots.now }
    ensures joined { HasJoined passes.items pass.old pass.new }
    ensures recorded { HasRecord plan.now.recorded pass.new result }
{
    let no_logs = Vec::new(context.alloc);
    let _report = wind_up(&context.rt, &context.hub, pass, passes, no_logs);
    if !plan.recorded {
        return None;
    }
    match put_record(&context.rt, context.alloc, &context.hub, pass, plan.roots) {
        Ok(record) => Some(record),
        Err(_) => None,
    }
}
