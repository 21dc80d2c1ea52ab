// The lines that evaluations and runs give.
ghost use Rattle.std.specs.Prelude.{◌≡◌, ◌++◌, OnOk};
ghost use Rattle.client_model.specs.Journal.{log_lines, fault_lines};

use hmr_types::{ClientId, EvalFault, ModName, Text};
use output_lines::{FaultPlace, OutLine};
use std::alloc::AllocError;

/// Adds a console line for each of the texts.
pub fn tell_log(
    lines: &mut Vec<OutLine>,
    client: ClientId,
    name: &ModName,
    texts: &[Text],
) -> Result<(), AllocError>
    ensures { OnOk result (lines.new.items ≡ lines.old.items ++ log_lines client name.now texts.now) }
{
    for text in texts {
        lines.push(OutLine::Log {
            client,
            name: name.clone()?,
            text: text.clone()?,
        })?;
    }
    Ok(())
}

/// Adds the line of a fault, where there is one.
pub fn tell_fault(
    lines: &mut Vec<OutLine>,
    client: ClientId,
    name: &ModName,
    place: FaultPlace,
    fault: Option<EvalFault>,
) -> Result<(), AllocError>
    ensures { OnOk result (lines.new.items ≡ lines.old.items ++ fault_lines client name.now place fault) }
{
    if let Some(fault) = fault {
        lines.push(OutLine::Fault {
            client,
            name: name.clone()?,
            place,
            fault,
        })?;
    }
    Ok(())
}
