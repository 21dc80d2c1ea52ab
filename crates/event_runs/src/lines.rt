// Lines of events, and the client that a line of an opening names.
ghost use Rattle.std.specs.Prelude.{◌≡◌, ◌∷◌, [], IfOk, map};
ghost use Rattle.output_lines.specs.declared.out_line.OutLine.TheVariants.{Full};
ghost use Rattle.event_runs.specs.Courses.{opened_by};

use hmr_types::{ClientId, ModName};
use output_lines::OutLine;
use std::alloc::{AllocError, Global};

/// The lines with a line before them. [`AllocError`] comes where memory runs out. It takes time in their
/// number.
pub fn behind(line: OutLine, lines: Vec<OutLine>) -> Result<Vec<OutLine>, AllocError>
    ensures { IfOk result (λ all. all.items ≡ line ∷ lines.items) }
{
    let mut lines = lines;
    lines.insert(0, line)?;
    Ok(lines)
}

/// A line for each of these clients, for which as many events wait as may. [`AllocError`] comes where memory
/// runs out. It takes time in their number, and for a copy of the name each.
pub fn full_lines(
    alloc: Global,
    event: &ModName,
    clients: &[ClientId],
) -> Result<Vec<OutLine>, AllocError>
    ensures { IfOk result (λ lines. lines.items ≡ map (λ i. Full i event.now) clients.now) }
{
    let mut lines = Vec::new(alloc);
    for client in clients {
        let event = event.clone()?;
        lines.push(OutLine::Full {
            client: *client,
            event,
        })?;
    }
    Ok(lines)
}

/// The client that an opening opened, by its lines; None where it opened none.
pub(crate) fn opened_by(lines: &[OutLine]) -> Option<ClientId>
    ensures { result ≡ opened_by lines.now }
{
    match lines {
        [OutLine::Open { client }] => Some(*client),
        _ => None,
    }
}
