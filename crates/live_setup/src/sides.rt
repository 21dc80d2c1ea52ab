// The two sides of a folder: what a server looks at, and what it answers by.
ghost use Rattle.std.specs.Prelude.{IfOk};
ghost use Rattle.core_model.specs.Roots.{AreRoots};

use crate::made_text::made_text;
use hmr_types::ModName;
use live_answers::FolderFiles;
use live_folder::{FolderMarks, MadePage};
use live_page::file;
use live_words::DevPlan;
use script_site::ScriptSite;
use std::alloc::{AllocError, Global};
use std::rt::Files;
use std::sync::Wait;
use std::time::{self, SystemTime, UNIX_EPOCH};

/// The page that a hub begins at where its client names none.
const PAGE: &[u8] = b"/index.html";

/// The folder that a server looks at, and the site that it answers by.
#[derive(Drop)]
pub struct Sides<R: Drop> {
    pub watched: MadePage<FolderMarks<R>>,
    pub site: ScriptSite<FolderFiles<R>>,
}

/// The two sides of the folder, of a server that begins now and listens at this port. `AllocError` where
/// memory ran out.
pub fn sides_of<R: Files + AllocGlobal + Wait + time::Clock + Copy + Drop>(
    rt: &R,
    alloc: Global,
    dev: &DevPlan,
    port: u16,
) -> Result<Sides<R>, AllocError> {
    let folder = dev.folder.clone()?.into_string();
    let marks = FolderMarks::new(alloc, *rt, folder.as_str())?;
    let page = made_text(alloc, dev.roots.as_slice())?;
    let files = FolderFiles::new(*rt, folder);
    Ok(Sides {
        watched: MadePage::new(alloc, marks, page)?,
        site: ScriptSite::new(alloc, files, client(), port, run_number(rt)),
    })
}

/// The roots of a client that names none: the one page of a folder. `AllocError` where memory ran out.
pub fn page_roots(alloc: Global) -> Result<Vec<ModName>, AllocError>
    ensures { IfOk result (λ roots. AreRoots roots.items) }
{
    let mut roots = Vec::new(alloc);
    match ModName::read(alloc, PAGE) {
        Ok(page) => {
            roots.push(page)?;
            Ok(roots)
        }
        Err(_) => Err(AllocError),
    }
}

// The script of the page's client.
fn client() -> &'static [u8] {
    match file("/@hmr/client.js") {
        Some(script) => script,
        None => b"",
    }
}

// By what pages know that a server isn't the one that they were loaded from: the milliseconds of the clock; 0
// where that fails.
fn run_number<R: time::Clock>(rt: &R) -> u64 {
    let Ok(now) = SystemTime::now(rt) else {
        return 0;
    };
    match now.duration_since(UNIX_EPOCH) {
        Ok(since) => since
            .as_secs()
            .saturating_mul(1000)
            .saturating_add(u64::from(since.subsec_millis())),
        Err(_) => 0,
    }
}
