// The result of a job: that of transforming its text.
ghost use Rattle.std.specs.Prelude.{◌≡◌, ◌≤◌, ◌∷◌, [], IfOk, OnOk, length};
ghost use Rattle.hmr_types.specs.declared.limits.TheConstants.{TEXT_BYTES};
ghost use Rattle.output_lines.specs.declared.out_line.OutLine.TheVariants.{Settle};
ghost use Rattle.module_semantics.specs.Analysis.{transformed};
ghost use Rattle.module_semantics.specs.ModuleText.{parsing};
ghost use Rattle.core_model.specs.Core as model;
ghost use Rattle.core_model.specs.Core.{change, step};
ghost use Rattle.core_model.specs.Sources as changes;
ghost use Rattle.core_model.specs.Sources.{result_answer};
ghost use Rattle.version_map.specs.Standing.{settled_as};
ghost use Rattle.world_parts.specs.Cores.{IsCore};
ghost use Rattle.world_parts.specs.Replies.{settled_word};

use crate::core_calls::tell;
use crate::lines::one_line;
use crate::replies::settle_word;
use events_and_replies::Event;
use hmr_types::{ModName, Ver};
use import_scan::transform;
use module_graph::copy_name;
use output_lines::{OutLine, SettleWord};
use server_core::Core;
use std::alloc::{AllocError, Global};

/// The line of a result: what became of it. [`AllocError`] comes where memory runs out. It takes constant
/// time.
pub fn settle_line(
    alloc: Global,
    name: ModName,
    version: Ver,
    outcome: SettleWord,
) -> Result<Vec<OutLine>, AllocError>
    ensures { IfOk result (λ lines. lines.items ≡ Settle name version outcome ∷ []) }
{
    one_line(
        alloc,
        OutLine::Settle {
            name,
            version,
            outcome,
        },
    )
}

/// Tells the core the result of transforming the text, for the job of this name and version, and gives what
/// became of it. [`AllocError`] comes where memory runs out; then no clause says what the core has. It costs
/// what transforming the text and the core's step cost.
pub fn settled(
    alloc: Global,
    core: &mut Core,
    name: &ModName,
    version: Ver,
    text: Vec<u8>,
) -> Result<SettleWord, AllocError>
    requires short { length text.items ≤ TEXT_BYTES }
    ensures core { (c : model.Core) → IsCore c core.old
        → OnOk result
        (IsCore (step core.old.roots c
        (change (changes.result name.now text.items
        (transformed parsing name.now text.items) version))).0 core.new) }
    ensures word { (c : model.Core) → IsCore c core.old
        → IfOk result
        (λ word. word
        ≡ settled_word
        (settled_as
        (result_answer c.sources name.now text.items (transformed parsing name.now text.items) version))) }
    ensures roots { core.new.roots ≡ core.old.roots }
{
    let transformed = transform(alloc, copy_name(name)?, text)?;
    let reply = tell(core, alloc, Event::Settle(transformed, version))?;
    Ok(settle_word(&reply))
}
