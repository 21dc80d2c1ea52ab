// A session over a desk of a hub, whose client goes when the transcript is full.
ghost use Rattle.std.specs.Prelude.{◌≡◌};
ghost use Rattle.hmr_hub.specs.Passes.{IsPassOf, number_of};

use crate::asking::{name, spaces, too_long};
use crate::desk_sessions::{HELLO, are_sent, session};
use hmr_hub::{Hub, HubStop, Pass};
use hmr_types::ModName;
use sessions::Ended;
use std::alloc::{AllocError, Global};
use std::sync::{Arc, Wait};
use std::test::Fail;

const FIRST: &str = "{\"client\":1,\"roots\":[\"/m.js\"],\"type\":\"connected\"}";

// With 64 and the five bytes of the name, these are a sixteenth of the bytes that a transcript has; a hello
// and a client that goes take 64 each.
const SPACES: usize = 16_777_147;

fn page(alloc: Global) -> Result<Vec<ModName>, AllocError> {
    Ok(vec![in alloc; name(alloc)?]?)
}

/// In a transcript that has this many bytes left behind a client's hello: whether the hello was answered,
/// whether the desk was full then, and whether it is full and ran out of memory once it told that its client
/// is gone. None where there was no memory.
fn gone<R: Wait + Copy + Drop>(
    rt: R,
    alloc: Global,
    hub: Hub,
    mut pass: Pass,
    left: usize,
) -> Result<Option<[bool; 4]>, HubStop>
    requires pass { IsPassOf hub pass }
    requires first { number_of pass ≡ 0 }
{
    let text = spaces(alloc, SPACES)?;
    too_long(&rt, alloc, &hub, &mut pass, &text, 15)?;
    let last = spaces(alloc, SPACES.wrapping_sub(64).wrapping_sub(left))?;
    too_long(&rt, alloc, &hub, &mut pass, &last, 1)?;
    let Ok(hub) = Arc::new(alloc, hub) else {
        return Ok(None);
    };
    let Some(mut over) = session(rt, alloc, &hub, &mut pass, &[HELLO]) else {
        return Ok(None);
    };
    let answered = over.ended == Ended::Closed && are_sent(over.link.sent(), &[FIRST]);
    let before = over.desk.is_full();
    over.desk.leave();
    let after = over.desk.is_full();
    Ok(Some([answered, before, after, over.desk.wants_memory()]))
}

#[test]
fn a_desk_is_full_where_its_last_event_has_no_place(rt: HostRuntime) -> Result<(), Fail> {
    let alloc = rt.alloc();
    let (hub, pass) = Hub::new(alloc, page(alloc)?)?;
    let told = gone(rt, alloc, hub, pass, 63)?;
    assert!(rt; told == Some([true, false, true, false]));
    Ok(())
}

#[test]
fn a_desk_is_not_full_where_its_last_event_has_its_place(rt: HostRuntime) -> Result<(), Fail> {
    let alloc = rt.alloc();
    let (hub, pass) = Hub::new(alloc, page(alloc)?)?;
    let told = gone(rt, alloc, hub, pass, 64)?;
    assert!(rt; told == Some([true, false, false, false]));
    Ok(())
}
