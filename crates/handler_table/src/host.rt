// The run that is stated for a closure, as code that a closure may call.
ghost use Rattle.std.specs.Prelude.{◌≡◌, IfOk};
ghost use Rattle.module_semantics.specs.Bodies.{host_line, host_ran};
ghost use Rattle.retained_data.specs.Runs.{ran_seen};

use hmr_types::{EvalFault, Name, Sequence, Text, Value};
use retained_data::{Bag, BagFault, Ran};
use std::alloc::{AllocError, Global};

/// The stated run of a closure of this label and number on a bag: the one line `host LABEL NUMBER`, and
/// the number kept under the key `host` of the bag. Where that key is new and the bag is full, the bag is
/// unchanged and the fault is that of a full bag. It fails only where memory runs out; the bag is then
/// gone.
pub fn host_run(alloc: Global, label: &str, number: u32, bag: Bag) -> Result<Ran, AllocError>
    ensures { IfOk result (λ ran. ran_seen ran ≡ host_ran label.now number bag) }
{
    let mut bag = bag;
    let mut lines = Vec::new(alloc);
    lines.push(host_line(alloc, label, number)?)?;
    let key = Name::from_string(String::from_str(alloc, "host")?);
    let fault = match bag.set(key, Value::Num(i64::from(number))) {
        Ok(()) => None,
        Err(BagFault::Full) => Some(EvalFault::BagFull),
        Err(BagFault::NoMemory) => return Err(AllocError),
    };
    Ok(Ran {
        fault,
        lines: Sequence::from_vec(lines),
        changes: Sequence::new(alloc),
        invalidations: Sequence::new(alloc),
        bag,
    })
}

fn host_line(alloc: Global, label: &str, number: u32) -> Result<Text, AllocError>
    ensures { IfOk result (λ line. line ≡ host_line label.now number) }
{
    let line = format!(in alloc; "host {label} {number}")?;
    Ok(Text::from_string(line))
}
