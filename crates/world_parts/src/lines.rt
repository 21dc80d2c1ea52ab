// Lines of a step.
ghost use Rattle.std.specs.Prelude.{◌≡◌, ◌∷◌, ◌++◌, [], IfOk, if◌then◌else◌, map};
ghost use Rattle.client_model.specs.Printing.{stale_line};
ghost use Rattle.output_lines.specs.declared.out_line.OutLine.TheVariants.{Unknown};
ghost use Rattle.output_lines.specs.declared.words.ClientState.TheVariants.{Behind, Up};

use hmr_types::{ClientId, ModName};
use output_lines::{ClientState, OutLine};
use std::alloc::{AllocError, Global};

/// One line, as the lines of a step. [`AllocError`] comes where memory runs out. It takes constant time.
pub fn one_line(alloc: Global, line: OutLine) -> Result<Vec<OutLine>, AllocError>
    ensures { IfOk result (λ lines. lines.items ≡ line ∷ []) }
{
    let mut lines = Vec::new(alloc);
    lines.push(line)?;
    Ok(lines)
}

/// The line of a step that names a client that isn't open. [`AllocError`] comes where memory runs out. It
/// takes constant time.
pub fn unknown(alloc: Global, client: ClientId) -> Result<Vec<OutLine>, AllocError>
    ensures { IfOk result (λ lines. lines.items ≡ Unknown client ∷ []) }
{
    one_line(alloc, OutLine::Unknown { client })
}

/// The word for a client that is caught up, or isn't. It takes constant time.
pub fn state_of(up: bool) -> ClientState
    ensures { result ≡ (if up then Up else Behind) }
{
    if up {
        ClientState::Up
    } else {
        ClientState::Behind
    }
}

/// The lines of stale edges, importer and dependency of each, behind those before. [`AllocError`] comes where
/// memory runs out, with some of the lines written. It takes time in the number of edges.
pub fn add_stale(lines: &mut Vec<OutLine>, edges: Vec<(ModName, ModName)>) -> Result<(), AllocError>
    ensures { IfOk result (λ _. lines.new.items ≡ lines.old.items ++ map stale_line edges.items) }
{
    for (importer, dependency) in edges {
        lines.push(OutLine::Stale {
            importer,
            dependency,
        })?;
    }
    Ok(())
}
