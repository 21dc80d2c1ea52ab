// What a hub reports of clients that came and went in two threads.
use crate::meeting::two_hundred;
use hmr_hub::{Hub, ReportLine};
use hmr_types::ModName;
use std::alloc::{AllocError, Global};
use std::test::Fail;

fn page(alloc: Global) -> Result<Vec<ModName>, AllocError> {
    let root = ModName::read(alloc, b"/m.js").map_err(|_| AllocError)?;
    Ok(vec![in alloc; root]?)
}

#[test]
fn two_threads_meet(rt: HostRuntime) -> Result<(), Fail> {
    let (hub, pass) = Hub::new(rt.alloc(), page(rt.alloc())?)?;
    let Some(mut pass) = two_hundred(&rt, rt.alloc(), &hub, pass) else {
        panic!(rt; "a client was refused")
    };
    assert_eq!(rt; pass.number(), 0);
    let lines = hub.report(&rt, &mut pass)?;
    // The count, `fresh`, the root that is missing, and a hundred clients that loaded nothing.
    assert_eq!(rt; lines.len(), 103);
    assert!(rt; matches!(lines[0], ReportLine::Steps(200)));
    assert!(rt; matches!(lines[102], ReportLine::Client(100)));
    Ok(())
}
