// A transcript is filled by edits whose texts are too long: each is refused, and is an entry all the same.
ghost use Rattle.std.specs.Prelude.{◌≡◌};
ghost use Rattle.hmr_hub.specs.Passes.{IsPassOf, number_of};

use crate::noting::note;
use events_and_replies::{Event, Reply};
use hmr_hub::{Hub, HubStop, Pass};
use hmr_types::ModName;
use std::alloc::Global;
use std::sync::Wait;

/// What is answered to so many edits of the module at this path, each with this text. It goes on to the
/// first that isn't answered.
pub fn fill<R: Wait>(
    rt: &R,
    alloc: Global,
    hub: &Hub,
    pass: &mut Pass,
    path: &ModName,
    text: &[u8],
    edits: u32,
) -> Result<Vec<Reply>, HubStop>
    requires pass { IsPassOf hub.now pass.old }
    requires first { number_of pass.old ≡ 0 }
    ensures pass { IsPassOf hub.now pass.new }
    ensures first { number_of pass.new ≡ 0 }
{
    let mut replies = Vec::new(alloc);
    for _ in 0..edits {
        let text = Some(Vec::from_slice(alloc, text)?);
        note(
            rt,
            hub,
            pass,
            &mut replies,
            Event::Edit(path.clone()?, text),
        )?;
    }
    Ok(replies)
}
