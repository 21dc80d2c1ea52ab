// An `open` of a folder of the file system that does not wait. A thread beside it looks for the file that is
// made once the folder was shown.
use crate::folder_tests::are;
use crate::show;
use folders::{FolderTree, OutFault, Tree};
use std::alloc::Global;
use std::rt::Files;
use std::sync::Wait;
use std::test::Fail;
use std::thread::Parker;
use std::time::Duration;
use std::{fs, thread};

/// How often a file is looked for: five seconds at 50 ms each.
const LOOKS: u8 = 100;

fn comes<R: Files + Wait>(rt: &R, path: &str) -> bool {
    let parker = Parker::new();
    for _ in 0..LOOKS {
        if fs::metadata(rt, path).is_ok() {
            return true;
        }
        parker.park_timeout(rt, Duration::from_millis(50));
    }
    false
}

#[test]
fn the_open_after_a_refused_one_does_not_wait(rt: HostRuntime) -> Result<(), Fail> {
    let alloc = rt.alloc();
    let mut tree = FolderTree::new(rt);
    assert!(rt; show(alloc, &mut tree, "late", 3) == Err(OutFault::Failed));
    fs::create_dir(&rt, "late")?;
    fs::write(&rt, "late/main.js", "one")?;
    let (lines, in_time) = thread::join(
        &rt,
        || {
            let lines = show(alloc, &mut tree, "late", 3);
            let _ = fs::write(&rt, "late.shown", "");
            lines
        },
        || comes(&rt, "late.shown"),
    );
    assert!(rt; in_time && are(&lines?, &["/main.js: one"]));
    fs::remove_file(&rt, "late.shown")?;
    fs::remove_dir_all(&rt, "late")?;
    Ok(())
}
