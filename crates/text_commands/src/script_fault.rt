// The stop for an input that is no script.
ghost use Rattle.std.specs.Prelude.{◌≡◌, IfOk};
ghost use Rattle.text_commands.specs.Ends.{IsFaultStop};
ghost use Rattle.text_commands.specs.Outputs.{fault_line};

use crate::stop::Stop;
use play_script::{ScriptFault, ScriptRefusal, script_word};
use std::alloc::{AllocError, Global};

/// The stop where a script isn't read: the line of its fault, or that memory ran out.
pub fn stop_of_fault(alloc: Global, refusal: ScriptRefusal) -> Stop
    ensures { IsFaultStop refusal result }
{
    match refusal {
        ScriptRefusal::Faulty(fault) => match fault_line(alloc, fault) {
            Ok(line) => Stop::Faulty(line),
            Err(_) => Stop::NoMemory,
        },
        ScriptRefusal::NoMemory => Stop::NoMemory,
    }
}

fn fault_line(alloc: Global, fault: ScriptFault) -> Result<Vec<u8>, AllocError>
    ensures { IfOk result (λ line. line.items ≡ fault_line fault) }
{
    let word = script_word(fault.kind);
    let number = fault.line;
    let line = format!(in alloc; "script fault at line {number}: {word}\n")?;
    Ok(line.into_bytes())
}
