// Servers that answer wrongly: with each kind of message that is no answer, to each kind of request; with a
// text that is no module; and with a refusal of what the page has told. And events that are fired at a page: a
// callback hears an event as one on a dependency of its name.
ghost use Rattle.update_msgs.specs.Writable.{IsFormat};

use crate::transcript::played;
use handler_table::host_run;
use retained_data::{Bag, Ran};
use std::alloc::{AllocError, Global};
use std::test::Fail;

/// A page whose first load is given up, and that invalidates its root.
const LYING: &str =
    r#"lie update prune full-reload error broken idle done text missing not-yet refused
unexpected 1:2
unexpected 1:3
unexpected 1:4
unexpected 1:5
unexpected 1:6
unexpected 1:7
unexpected 1:8
unexpected 1:9
unexpected 1:10
unexpected 1:11
unexpected 1:12
lie refused-4 refused-5 refused-6
unexpected 1:12
unexpected 1:12
unexpected 1:12
lie refused-2 refused-3 refused-7
hello 1
{"client":1,"roots":["/m.js"],"type":"connected"}
lie connected update prune full-reload error broken idle done text missing not-yet refused
unexpected 3:1
unexpected 3:2
unexpected 3:3
unexpected 3:4
unexpected 3:5
unexpected 3:6
unexpected 3:7
unexpected 3:8
unexpected 3:9
unexpected 3:10
unexpected 3:11
unexpected 3:12
lie refused-2 refused-3 refused-4 refused-5 refused-6 refused-7
unexpected 3:12
unexpected 3:12
unexpected 3:12
unexpected 3:12
unexpected 3:12
unexpected 3:12
fetch /m.js
{"path":"/m.js","type":"missing"}
lie connected update prune full-reload error broken idle text missing not-yet refused
unexpected 5:1
unexpected 5:2
unexpected 5:3
unexpected 5:4
unexpected 5:5
unexpected 5:6
unexpected 5:7
unexpected 5:9
unexpected 5:10
unexpected 5:11
unexpected 5:12
lie refused-2 refused-3 refused-4 refused-5 refused-6 refused-7
unexpected 5:12
unexpected 5:12
unexpected 5:12
unexpected 5:12
unexpected 5:12
unexpected 5:12
aborted missing /m.js
{"type":"done"}
1 aborted missing /m.js
lie update prune full-reload broken done text missing not-yet refused
unexpected 2:2
unexpected 2:3
unexpected 2:4
unexpected 2:6
unexpected 2:8
unexpected 2:9
unexpected 2:10
unexpected 2:11
unexpected 2:12
lie refused-2 refused-3 refused-4 refused-5 refused-6 refused-7
unexpected 2:12
unexpected 2:12
unexpected 2:12
unexpected 2:12
unexpected 2:12
unexpected 2:12
ask
{"client":1,"roots":["/m.js"],"type":"connected"}
lie connected update prune full-reload error broken idle done text missing not-yet refused
unexpected 3:1
unexpected 3:2
unexpected 3:3
unexpected 3:4
unexpected 3:5
unexpected 3:6
unexpected 3:7
unexpected 3:8
unexpected 3:9
unexpected 3:10
unexpected 3:11
unexpected 3:12
fetch /m.js
{"path":"/m.js","text":"import.meta.hot.accept(() => import.meta.hot.invalidate('late'));","type":"text","version":1}
lie connected update prune full-reload error broken idle text missing not-yet refused
unexpected 4:1
unexpected 4:2
unexpected 4:3
unexpected 4:4
unexpected 4:5
unexpected 4:6
unexpected 4:7
unexpected 4:9
unexpected 4:10
unexpected 4:11
unexpected 4:12
lie refused-2 refused-3 refused-4 refused-5 refused-6 refused-7
unexpected 4:12
unexpected 4:12
unexpected 4:12
unexpected 4:12
unexpected 4:12
unexpected 4:12
applied /m.js:1
{"type":"done"}
1 loaded
lie connected broken done text missing not-yet refused
unexpected 2:1
unexpected 2:6
unexpected 2:8
unexpected 2:9
unexpected 2:10
unexpected 2:11
unexpected 2:12
?table
table /m.js:1
?fates
fates 1
instance 1 /m.js 1 done live
own code held
ask
{"replaced":["/m.js"],"type":"update","updates":[{"acceptedPath":"/m.js","path":"/m.js","timestamp":2,"type":"js-update"}]}
1 update /m.js
1 accept /m.js /m.js
lie connected update prune full-reload error broken idle done text missing not-yet refused
unexpected 3:1
unexpected 3:2
unexpected 3:3
unexpected 3:4
unexpected 3:5
unexpected 3:6
unexpected 3:7
unexpected 3:8
unexpected 3:9
unexpected 3:10
unexpected 3:11
unexpected 3:12
fetch /m.js
{"path":"/m.js","text":"import.meta.hot.accept();","type":"text","version":2}
lie connected update prune full-reload error broken idle text missing not-yet refused
unexpected 4:1
unexpected 4:2
unexpected 4:3
unexpected 4:4
unexpected 4:5
unexpected 4:6
unexpected 4:7
unexpected 4:9
unexpected 4:10
unexpected 4:11
unexpected 4:12
applied /m.js:2
{"type":"done"}
1 updated
lie connected update prune full-reload error broken idle text missing not-yet refused
unexpected 6:1
unexpected 6:2
unexpected 6:3
unexpected 6:4
unexpected 6:5
unexpected 6:6
unexpected 6:7
unexpected 6:9
unexpected 6:10
unexpected 6:11
unexpected 6:12
lie refused-2 refused-3 refused-4 refused-5 refused-7
unexpected 6:12
unexpected 6:12
unexpected 6:12
unexpected 6:12
unexpected 6:12
invalidate /m.js:2 late
{"type":"done"}
1 invalidated /m.js late
lie connected broken done text missing not-yet refused
unexpected 2:1
unexpected 2:6
unexpected 2:8
unexpected 2:9
unexpected 2:10
unexpected 2:11
unexpected 2:12
ask
{"type":"idle"}
"#;

/// A page whose root isn't served yet, then is broken, then is said to be good and isn't, then good.
const BROKEN: &str = r#"hello 1
{"client":1,"roots":["/m.js"],"type":"connected"}
fetch /m.js
{"path":"/m.js","type":"not-yet"}
1 wait /m.js
fetch /m.js
{"column":14,"kind":"unexpected","line":1,"path":"/m.js","type":"broken"}
aborted broken /m.js
{"type":"done"}
1 aborted broken /m.js
?rest
client 1 busy
?fates
fates 1
ask
{"column":14,"kind":"unexpected","line":1,"path":"/m.js","type":"error"}
1 error /m.js 1:14 unexpected
ask
{"type":"idle"}
ask
{"client":1,"roots":["/m.js"],"type":"connected"}
fetch /m.js
{"path":"/m.js","text":"export const = 2;","type":"text","version":2}
aborted broken /m.js
{"type":"done"}
1 aborted broken /m.js
ask
{"client":1,"roots":["/m.js"],"type":"connected"}
fetch /m.js
{"path":"/m.js","text":"export const n = 2;","type":"text","version":3}
applied /m.js:3
{"type":"done"}
1 loaded
?rest
client 1 at rest
"#;

/// A module that invalidates itself twice: the server ignores the first, and takes the second. In format 2.
const IMPORTER: &str = r#"hello 2
{"client":1,"roots":["/m.js"],"type":"connected"}
fetch /m.js
{"path":"/m.js","text":"import { a } from './a.js'; console.log('m', a); import.meta.hot.accept();","type":"text","version":1}
fetch /a.js
{"path":"/a.js","text":"export const a = 1; import.meta.hot.accept((n) => { import.meta.hot.invalidate('changed ' + n?.a); });","type":"text","version":2}
applied /a.js:2 /m.js:1
{"type":"done"}
1 log /m.js m 1
1 loaded
ask
{"batch":1,"replaced":["/a.js"],"triggeredBy":["/a.js"],"type":"update","updates":[{"acceptedPath":"/a.js","path":"/a.js","timestamp":3,"type":"js-update"}]}
1 batch 1 by /a.js
1 update /a.js
1 accept /a.js /a.js
fetch /a.js
{"path":"/a.js","text":"export const a = 2; import.meta.hot.accept((n) => { import.meta.hot.invalidate('changed ' + n?.a); });","type":"text","version":3}
applied /a.js:3 /m.js:1
{"type":"done"}
1 updated
?rest
client 1 busy
invalidate /a.js:3 changed 2
{"code":6,"kept":null,"path":null,"told":null,"type":"refused"}
1 ignored /a.js
?rest
client 1 at rest
ask
{"type":"idle"}
ask
{"batch":2,"replaced":["/a.js"],"triggeredBy":["/a.js"],"type":"update","updates":[{"acceptedPath":"/a.js","path":"/a.js","timestamp":4,"type":"js-update"}]}
1 batch 2 by /a.js
1 update /a.js
1 accept /a.js /a.js
fetch /a.js
{"path":"/a.js","text":"export const a = 3; import.meta.hot.accept();","type":"text","version":4}
applied /a.js:4 /m.js:1
{"type":"done"}
1 updated
invalidate /a.js:4 changed 3
{"type":"done"}
1 invalidated /a.js changed 3
ask
{"batch":3,"replaced":["/m.js"],"triggeredBy":["/a.js"],"type":"update","updates":[{"acceptedPath":"/m.js","path":"/m.js","timestamp":1,"type":"js-update"}]}
1 batch 3 by /a.js
1 update /m.js
1 accept /m.js /m.js
fetch /m.js
{"path":"/m.js","text":"import { a } from './a.js'; console.log('m', a); import.meta.hot.accept();","type":"text","version":1}
applied /a.js:4 /m.js:1
{"type":"done"}
1 log /m.js m 3
1 updated
?stale
?rest
client 1 at rest
"#;

/// Two modules that list events, and an update that takes the one away.
const EVENTS: &str = r#"?fire /event/x early
not heard
hello 1
{"client":1,"roots":["/m.js"],"type":"connected"}
?fire /event/x early
not heard
fetch /m.js
{"path":"/m.js","text":"import './a.js'; import.meta.hot.accept('/event/x', (e) => { console.log('m hears', e?.data); }); import.meta.hot.accept('/event/z', () => console.log('never')); import.meta.hot.accept(['/event/y', '/event/x'], ([y, x]) => { console.log('m lists', y?.data, x?.data); });","type":"text","version":1}
fetch /a.js
{"path":"/a.js","text":"export let seen = 0; import.meta.hot.accept('/event/x', (e) => { seen = e?.data; console.log('a hears', seen); }); import.meta.hot.accept();","type":"text","version":2}
?fire /event/x early
not heard
applied /a.js:2 /m.js:1
{"type":"done"}
1 loaded
?fire /event/x news
1 log /a.js a hears news
1 log /m.js m hears news
1 log /m.js m lists undefined news
?fire /event/y
1 log /m.js m lists  undefined
?fire /event/w lost
?values
values 1
value /a.js seen "news"
ask
{"replaced":["/a.js"],"type":"update","updates":[{"acceptedPath":"/a.js","path":"/a.js","timestamp":3,"type":"js-update"}]}
1 update /a.js
1 accept /a.js /a.js
?fire /event/x late
not heard
fetch /a.js
{"path":"/a.js","text":"export let seen = 3; import.meta.hot.accept();","type":"text","version":3}
?fire /event/x late
not heard
applied /a.js:3 /m.js:1
{"type":"done"}
1 updated
?fire /event/x more
1 log /m.js m hears more
1 log /m.js m lists undefined more
?values
values 1
value /a.js seen 3
?fates
fates 1
instance 1 /a.js 2 done replaced 3
dep code dropped
instance 2 /m.js 1 done live
dep code held
dep code held
dep code held
instance 3 /a.js 3 done live
"#;

/// What comes of the rows with a client of a format.
fn told(alloc: Global, format: u8, rows: &str) -> Result<String, AllocError>
    requires format { IsFormat format }
{
    let make = |number: u32| {
        move |bag: Bag| -> Result<Ran, AllocError> { host_run(alloc, "H", number, bag) }
    };
    played(alloc, make, format, rows)
}

#[test]
fn a_wrong_answer_changes_nothing(rt: HostRuntime) -> Result<(), Fail> {
    let alloc = rt.alloc();
    for rows in [LYING, BROKEN] {
        let told = told(alloc, 1, rows)?;
        assert!(rt; told.as_str() == rows, "{told}");
    }
    Ok(())
}

#[test]
fn an_invalidation_is_ignored_and_told_again(rt: HostRuntime) -> Result<(), Fail> {
    let alloc = rt.alloc();
    let told = told(alloc, 2, IMPORTER)?;
    assert!(rt; told.as_str() == IMPORTER, "{told}");
    Ok(())
}

#[test]
fn events_are_heard_in_order(rt: HostRuntime) -> Result<(), Fail> {
    let alloc = rt.alloc();
    let told = told(alloc, 1, EVENTS)?;
    assert!(rt; told.as_str() == EVENTS, "{told}");
    Ok(())
}
