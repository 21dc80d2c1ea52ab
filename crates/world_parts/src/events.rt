// Events of the core, as they are made of the parts of a step.
ghost use Rattle.std.specs.Prelude.{◌≡◌, ◌≤◌, IfOk, length};
ghost use Rattle.std.specs.Option.{option_map};
ghost use Rattle.hmr_types.specs.declared.limits.TheConstants.{TEXT_BYTES};
ghost use Rattle.module_semantics.specs.Analysis.{transformed};
ghost use Rattle.module_semantics.specs.ModuleText.{parsing};
ghost use Rattle.core_model.specs.Core.{change, connect};
ghost use Rattle.core_model.specs.Sources.{edit};
ghost use Rattle.core_model.specs.Sources as changes;
ghost use Rattle.events_and_replies.specs.Said.{event_of};

use events_and_replies::Event;
use hmr_types::{ModName, Ver};
use import_scan::transform;
use module_graph::{copy_name, copy_of};
use std::alloc::{AllocError, Global};

/// The event that a module gets a text, or that its source is taken away. [`AllocError`] comes where memory
/// runs out. It takes time and memory for a copy of the name and the text.
pub fn edit_to(alloc: Global, name: &ModName, text: &Option<Vec<u8>>) -> Result<Event, AllocError>
    ensures { IfOk result
        (λ event. event_of event ≡ change (edit name.now (option_map (λ t. t.items) text.now))) }
{
    let name = copy_name(name)?;
    match text {
        Some(text) => Ok(Event::Edit(name, Some(Vec::from_slice(alloc, text)?))),
        None => Ok(Event::Edit(name, None)),
    }
}

/// The event that the result of a job comes, which is that of transforming its text. [`AllocError`] comes
/// where memory runs out. It takes time and memory for a copy of the text, and what transforming it takes.
pub fn result_for(
    alloc: Global,
    name: &ModName,
    version: Ver,
    text: &[u8],
) -> Result<Event, AllocError>
    requires short { length text.now ≤ TEXT_BYTES }
    ensures { IfOk result
        (λ event. event_of event
        ≡ change (changes.result name.now text.now (transformed parsing name.now text.now) version)) }
{
    let copy = Vec::from_slice(alloc, text)?;
    let transformed = transform(alloc, copy_name(name)?, copy)?;
    Ok(Event::Settle(transformed, version))
}

/// The event that a client comes, and names these roots or none. [`AllocError`] comes where memory runs out.
/// It takes time and memory for a copy of the names.
pub fn hello_of(alloc: Global, names: &[ModName]) -> Result<Event, AllocError>
    ensures { IfOk result (λ event. event_of event ≡ connect names.now) }
{
    Ok(Event::Connect(copy_of(alloc, names)?))
}
