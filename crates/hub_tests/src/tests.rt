// What a hub answers and reports, and what a core answers to its events.
use crate::asking::{
    is_full, loading_said, name, report_said, rests_once_settled, spaces, too_long,
    waits_once_edited,
};
use crate::retelling::retold_said;
use hmr_hub::{Hub, HubStop};
use hmr_types::ModName;
use std::alloc::{AllocError, Global};
use std::test::Fail;

// With 64 and the five bytes of the name, these are a sixteenth of the 268,435,456 that a transcript has.
const SPACES: usize = 16_777_147;

fn page(alloc: Global) -> Result<Vec<ModName>, AllocError> {
    Ok(vec![in alloc; name(alloc)?]?)
}

#[test]
fn a_transcript_is_filled_to_its_last_byte(rt: HostRuntime) -> Result<(), Fail> {
    let alloc = rt.alloc();
    let text = spaces(alloc, SPACES)?;
    let longer = spaces(alloc, SPACES + 1)?;
    let (hub, mut pass) = Hub::new(alloc, page(alloc)?)?;
    assert_eq!(rt; too_long(&rt, alloc, &hub, &mut pass, &text, 15)?, 15);
    let over = too_long(&rt, alloc, &hub, &mut pass, &longer, 1);
    assert!(rt; matches!(over, Err(HubStop::TranscriptFull)));
    assert_eq!(rt; too_long(&rt, alloc, &hub, &mut pass, &text, 1)?, 1);
    assert!(rt; is_full(&rt, &hub, &mut pass));
    let report = report_said(&rt, alloc, &hub, &mut pass)?;
    assert_eq!(rt; report.as_str(), "steps 16, fresh, missing /m.js");
    Ok(())
}

#[test]
fn a_result_is_outstanding_from_its_edit_on(rt: HostRuntime) -> Result<(), Fail> {
    let alloc = rt.alloc();
    let (hub, mut pass) = Hub::new(alloc, page(alloc)?)?;
    assert!(rt; waits_once_edited(&rt, alloc, &hub, &mut pass)?);
    assert!(rt; rests_once_settled(&rt, alloc, &hub, &mut pass)?);
    Ok(())
}

#[test]
fn every_kind_of_event_is_told(rt: HostRuntime) -> Result<(), Fail> {
    let alloc = rt.alloc();
    let (hub, mut pass) = Hub::new(alloc, page(alloc)?)?;
    waits_once_edited(&rt, alloc, &hub, &mut pass)?;
    rests_once_settled(&rt, alloc, &hub, &mut pass)?;
    let replies = loading_said(&rt, alloc, &hub, &mut pass)?;
    assert_eq!(rt;
        replies.as_str(),
        "client 1, /m.js 1, done, idle, ignored, out of turn, gone, client 2"
    );
    let report = report_said(&rt, alloc, &hub, &mut pass)?;
    assert_eq!(rt;
        report.as_str(),
        "steps 10, fresh, /m.js 1, client 1, /m.js 1, client 2"
    );
    Ok(())
}

#[test]
fn a_core_answers_the_events_of_a_hub_alike(rt: HostRuntime) -> Result<(), Fail> {
    let alloc = rt.alloc();
    let (hub, mut pass) = Hub::new(alloc, page(alloc)?)?;
    waits_once_edited(&rt, alloc, &hub, &mut pass)?;
    rests_once_settled(&rt, alloc, &hub, &mut pass)?;
    loading_said(&rt, alloc, &hub, &mut pass)?;
    let replies = retold_said(&rt, alloc, &hub, &mut pass, page(alloc)?)?;
    assert_eq!(rt;
        replies.as_str(),
        "job 1, served, client 1, /m.js 1, done, idle, ignored, out of turn, gone, client 2"
    );
    Ok(())
}
