// The lines that tell of a plan's beginning.
ghost use Rattle.std.specs.Prelude.{◌≡◌, ◌++◌, ◌∷◌, [], map, IfOk, OnOk};
ghost use Rattle.core_model.specs.Names.{in_order};
ghost use Rattle.client_model.specs.Answering.{pair_of};
ghost use Rattle.client_plan.specs.Telling.{accept_lines, batch_lines};

use hmr_types::{ClientId, ModName, Sequence};
use module_graph::copy_name;
use output_lines::OutLine;
use std::alloc::{AllocError, Global};
use update_msgs::JsUpdate;

/// A list of one line. It fails only where memory runs out.
pub fn one_line(alloc: Global, line: OutLine) -> Result<Vec<OutLine>, AllocError>
    ensures { IfOk result (λ lines. lines.items ≡ line ∷ []) }
{
    let mut lines = Vec::new(alloc);
    lines.push(line)?;
    Ok(lines)
}

/// The lines of a batch: one, with the names in order, and none where the batch is 0. It takes the time of a
/// sort; it fails only where memory runs out.
pub fn batch_lines(
    alloc: Global,
    client: ClientId,
    batch: u64,
    triggered: Sequence<ModName>,
) -> Result<Vec<OutLine>, AllocError>
    ensures { IfOk result (λ lines. lines.items ≡ batch_lines client batch triggered) }
{
    if batch == 0 {
        return Ok(Vec::new(alloc));
    }
    let triggered = in_order(triggered)?;
    one_line(
        alloc,
        OutLine::Batch {
            client,
            batch,
            triggered,
        },
    )
}

/// The names in order; a repeated one stays. It takes the time of a sort; it fails only where memory runs
/// out.
pub fn in_order(names: Sequence<ModName>) -> Result<Sequence<ModName>, AllocError>
    ensures { IfOk result (λ sorted. sorted ≡ in_order names) }
{
    let mut names = names.into_vec();
    names.sort()?;
    Ok(Sequence::from_vec(names))
}

/// Adds the line of each boundary, in order. It takes time in proportion to them. It fails only where memory
/// runs out; some of the lines are then added.
pub fn tell_accepts(
    lines: &mut Vec<OutLine>,
    client: ClientId,
    pairs: &[(ModName, ModName)],
) -> Result<(), AllocError>
    ensures { OnOk result (lines.new.items ≡ lines.old.items ++ accept_lines client pairs.now) }
{
    for pair in pairs {
        lines.push(OutLine::Accept {
            client,
            boundary: copy_name(&pair.0)?,
            via: copy_name(&pair.1)?,
        })?;
    }
    Ok(())
}

/// The boundaries of an update, each with the module that it is told of, in order. It takes time in
/// proportion to them. It fails only where memory runs out.
pub(crate) fn pairs_of(
    alloc: Global,
    updates: &[JsUpdate],
) -> Result<Vec<(ModName, ModName)>, AllocError>
    ensures { IfOk result (λ pairs. pairs.items ≡ map pair_of updates.now) }
{
    let mut pairs = Vec::new(alloc);
    for update in updates {
        pairs.push((copy_name(&update.path)?, copy_name(&update.accepted_path)?))?;
    }
    Ok(pairs)
}
