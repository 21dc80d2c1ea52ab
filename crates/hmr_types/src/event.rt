// Names of events: segments with a `:` between each two, at most 64 bytes, as `my:ping`. An event stands
// for a module, which dependency callbacks list as any other: `/event/my/ping` is the one of `my:ping`.
ghost use Rattle.std.specs.List.{list_all, slice_split};
ghost use Rattle.std.specs.Option.{option_map};
ghost use Rattle.std.specs.Prelude.{◌≡◌, ◌==◌, IfOk, ℕ, List, Some, true};
ghost use Rattle.hmr_types.specs.Event.{are_joined, colon, event_module, event_of, is_event, with_mark};
ghost use Rattle.hmr_types.specs.ModName.{is_name, is_segment, slash};

use crate::Text;
use crate::limits::EVENT_BYTES;
use crate::mod_name::is_segment;
use std::alloc::{AllocError, Global};

/// Whether bytes are the name of an event. It takes time in proportion to the bytes.
pub fn is_event(text: &[u8]) -> bool
    ensures { result ≡ is_event text.now }
{
    are_joined(text, b':')
}

/// Whether bytes are segments with this mark between each two, at most 64 bytes.
fn are_joined(text: &[u8], mark: u8) -> bool
    ensures { result ≡ are_joined mark text.now }
{
    text.len() <= EVENT_BYTES && text.split(|b| *b == mark).all(is_segment)
}

/// The name of the module that stands for an event, with a `/` for each `:` of the event's name.
pub fn event_module(alloc: Global, event: &str) -> Result<Text, AllocError>
    ensures { IfOk result (λ name. name ≡ event_module event.now) }
{
    let mut name = String::from_str(alloc, "/event")?;
    for part in event.split(':') {
        name.push('/')?;
        name.push_str(part)?;
    }
    Ok(Text::from_string(name))
}

/// An event and its module tell each other, and the module is named as modules are.
pub fn events_and_modules_tell_each_other()
    ensures module { (event : List ℕ) → is_event event ≡ true → event_of (event_module event) ≡ Some event }
    ensures event { (name event : List ℕ) → event_of name ≡ Some event
        → (event_module event ≡ name) × (is_event event ≡ true) }
    ensures named { (event : List ℕ) → is_event event ≡ true → is_name (event_module event) ≡ true }
{}

/// The segments of the event that a module stands for, with a `/` between each two, unless it stands for
/// none: with a `:` for each `/` they are the event's name.
pub fn event_path(name: &[u8]) -> Option<&[u8]>
    ensures { option_map (λ path. with_mark slash colon path.now) result ≡ event_of name.now }
{
    if !name.starts_with(b"/event/") {
        return None;
    }
    let path = &name[7..];
    if are_joined(path, b'/') {
        Some(path)
    } else {
        None
    }
}
