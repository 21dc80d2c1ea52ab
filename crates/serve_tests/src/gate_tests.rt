// Two results come in the other order than their edits.
use crate::serving::{Looks, files, served};
use crate::turning_gate::TurningGate;
use handler_table::host_run;
use retained_data::{Bag, Ran};
use std::alloc::{AllocError, Global};
use std::collections::VecDeque;
use std::sync::Arc;
use std::sync::atomic::{AtomicBool, Ordering};
use std::test::Fail;
use transport::MemNet;

const ROOT: &str = "import \"./a.js\";\nimport \"./b.js\";\n";

/// A folder of one module at the first look, and of two more at the second.
fn growing(alloc: Global) -> Result<Looks, AllocError> {
    let mut looks = VecDeque::new(alloc);
    looks.push_back(files(alloc, &[("/m.js", ROOT)])?)?;
    let more = [
        ("/a.js", "export const a = 1;\n"),
        ("/b.js", "export const b = 2;\n"),
        ("/m.js", ROOT),
    ];
    looks.push_back(files(alloc, &more)?)?;
    Ok(looks)
}

#[test]
fn two_workers_end_in_the_other_order(rt: HostRuntime) -> Result<(), Fail> {
    let alloc = rt.alloc();
    let net = MemNet::new(alloc, rt, Vec::new(alloc), VecDeque::new(alloc))?;
    let sample = move |bag: Bag| -> Result<Ran, AllocError> { host_run(alloc, "H", 1, bag) };
    let turned = Arc::new(alloc, AtomicBool::new(false))?;
    let gate = TurningGate {
        third: Arc::new(alloc, AtomicBool::new(false))?,
        turned: Arc::try_clone(&turned)?,
    };
    let over = served(&rt, alloc, sample, growing(alloc)?, gate, net)?;
    assert!(rt;
        turned.load(Ordering::SeqCst),
        "a worker didn't pass version 2 behind version 3"
    );
    assert!(rt; over.ended.is_ok());
    assert_eq!(rt;
        over.report.as_str(),
        "listening 5173\nsteps 6\nfresh\n/a.js 2\n/b.js 3\n/m.js 1\n"
    );
    Ok(())
}
