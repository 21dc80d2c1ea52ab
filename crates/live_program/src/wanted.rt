// What the words of the command line ask for.
ghost use Rattle.std.specs.Prelude.{IfOk};
ghost use Rattle.live_words.specs.Words.{CanServe};

use crate::endings::{NO_FOLDER, NO_MEMORY, WRONG_WORDS, has_file, is_folder};
use live_words::{DevPlan, Wanted, WordsFault, fault_text, help_text, read_words};
use std::alloc::{AllocError, Global};
use std::env;
use std::io::ErrorKind;

/// What is to be served. Err: nothing is, since the help was asked for or something is wrong, which is said;
/// with the status.
pub(crate) fn wanted(rt: &HostRuntime, alloc: Global) -> Result<DevPlan, u8>
    ensures { IfOk result CanServe }
{
    let Ok(words) = words_of(rt, alloc) else {
        return Err(NO_MEMORY);
    };
    let plan = match read_words(alloc, &words) {
        Ok(Wanted::Serve(plan)) => plan,
        Ok(Wanted::Help) => {
            let help = help_text();
            let _ = print!(rt; "{help}");
            return Err(0);
        }
        Err(fault) => return Err(refuse_words(rt, alloc, &fault)),
    };
    if !is_folder(rt, plan.folder.as_str()) {
        let folder = plan.folder.as_str();
        let _ = eprintln!(rt; "hmr dev: there is no folder {folder}");
        return Err(NO_FOLDER);
    }
    if has_page(rt, alloc, &plan) {
        Ok(plan)
    } else {
        Err(refuse_pageless(rt, &plan))
    }
}

// Whether there is a page to serve: one of the folder, or one that is made of the named modules. Where memory
// runs out, it is looked for later.
fn has_page(rt: &HostRuntime, alloc: Global, plan: &DevPlan) -> bool {
    if !plan.roots.as_slice().is_empty() {
        return true;
    }
    has_file(rt, alloc, plan.folder.as_str(), "index.html").unwrap_or(true)
}

// Says that there is no page to serve, and gives the status.
fn refuse_pageless(rt: &HostRuntime, plan: &DevPlan) -> u8 {
    let folder = plan.folder.as_str();
    let _ = eprintln!(rt;
        "hmr dev: {folder} has no index.html; name the modules that a page is to load, as in \
hmr dev {folder} /main.js"
    );
    WRONG_WORDS
}

// The words behind the program's name; none where one of them isn't UTF-8, as such a word names no folder.
fn words_of(rt: &HostRuntime, alloc: Global) -> Result<Vec<String>, AllocError> {
    let mut words = Vec::new(alloc);
    match env::args(rt) {
        Ok(args) => {
            for word in args.skip(1) {
                words.push(word)?;
            }
        }
        Err(error) if error.kind() == ErrorKind::OutOfMemory => return Err(AllocError),
        Err(_) => {}
    }
    Ok(words)
}

// Says what is wrong with the words, and gives the status.
fn refuse_words(rt: &HostRuntime, alloc: Global, fault: &WordsFault) -> u8 {
    if matches!(fault, WordsFault::NoMemory) {
        return NO_MEMORY;
    }
    if let Ok(text) = fault_text(alloc, fault) {
        let _ = eprint!(rt; "hmr dev: {text}hmr dev: see ./hmr help dev\n");
    }
    WRONG_WORDS
}
