// Why a plan can't be carried out.
ghost use Rattle.std.specs.Prelude.{◌≡◌, IfOk};
ghost use Rattle.update_msgs.specs.Writable.{IsSayable};
ghost use Rattle.client_model.specs.Requesting.{abort_message};
ghost use Rattle.client_plan.specs.UnderWay.{cause_of};

use hmr_types::{ModName, Name, Text};
use module_graph::copy_name;
use std::alloc::AllocError;
use update_msgs::{AbortCause, ClientMsg};

/// Why a plan can't be carried out.
#[derive(Drop)]
pub enum Cause {
    /// The module isn't served.
    Missing(ModName),
    /// The module's text can't be read.
    Broken(ModName),
    /// A module imports from a dependency what it doesn't export.
    Unlinked(ModName, ModName, Name),
}

/// The message that a plan was given up for this cause. It can be written. It fails only where memory
/// runs out.
pub(crate) fn abort_message(cause: &Cause) -> Result<ClientMsg, AllocError>
    ensures message { IfOk result (λ asked. asked ≡ abort_message (cause_of cause.now)) }
    ensures sayable { IfOk result IsSayable }
{
    match cause {
        Cause::Missing(name) => Ok(ClientMsg::Aborted {
            cause: AbortCause::Missing,
            path: copy_name(name)?,
            from: None,
            name: None,
        }),
        Cause::Broken(name) => Ok(ClientMsg::Aborted {
            cause: AbortCause::Broken,
            path: copy_name(name)?,
            from: None,
            name: None,
        }),
        Cause::Unlinked(name, dependency, export) => Ok(ClientMsg::Aborted {
            cause: AbortCause::Link,
            path: copy_name(name)?,
            from: Some(copy_name(dependency)?),
            name: Some(text_of(export)?),
        }),
    }
}

// A name of the module language as a text.
fn text_of(name: &Name) -> Result<Text, AllocError>
    ensures { IfOk result (λ text. text ≡ name.now) }
{
    let copy = copy_of(name)?;
    Ok(Text::from_string(copy.into_string()))
}

fn copy_of(name: &Name) -> Result<Name, AllocError>
    ensures { IfOk result (λ copy. copy ≡ name.now) }
{
    name.clone()
}
