// Worked cases of events and the modules that they stand for, from outside of the definitions. Names and
// specifiers are tested over the program.
use hmr_types::{Text, event_module, event_path, is_event};
use std::alloc::{AllocError, Global};
use std::test::Fail;

/// The module of the event that a text names, or `none`.
fn listened(alloc: Global, event: &str) -> Result<Text, AllocError> {
    if is_event(event.as_bytes()) {
        event_module(alloc, event)
    } else {
        Ok(Text::from_string(String::from_str(alloc, "none")?))
    }
}

/// A text and the module of the event that it names, in turn.
const EVENTS: &str = "\
ping /event/ping
my:ping /event/my/ping
a:b-2:C_d.js /event/a/b-2/C_d.js
 none
: none
my: none
:ping none
my::ping none
my:. none
..:ping none
my/ping none
my?:ping none
";

#[test]
fn events_stand_for_modules(rt: HostRuntime) -> Result<(), Fail> {
    let alloc = rt.alloc();
    let mut rows: u32 = 0;
    for row in EVENTS.lines() {
        if let Some((event, want)) = row.split_once(' ') {
            let is = listened(alloc, event)?;
            assert_eq!(rt; is.as_str(), want);
            let stands = event_path(is.as_str().as_bytes()).is_some();
            assert!(rt; stands == (want != "none"));
            rows = rows.wrapping_add(1);
        }
    }
    assert_eq!(rt; rows, 12);
    Ok(())
}
