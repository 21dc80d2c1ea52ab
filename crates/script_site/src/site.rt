// The site of files of real JavaScript.
ghost use Rattle.std.specs.Prelude.{◌≡◌, IfOk};
ghost use Rattle.std.specs.Option.{ForSome};
ghost use Rattle.live_answers.specs.Serving.{AnswersHead};
ghost use Rattle.live_site.specs.CoreTexts.{IsShort};
ghost use Rattle.script_site.specs.Anything.{gives_anything, takes_anything};

use crate::folder::NamedFiles;
use crate::imported::names_imported;
use crate::paths::SitePaths;
use crate::reading::{ReadFile, read_file};
use crate::site_state::SiteState;
use hmr_types::limits::TEXT_BYTES;
use hmr_types::{ModName, Text, Ver};
use live_answers::{Answer, Files, answer_head, body_length};
use live_lines::{ImportedName, line_at};
use live_site::Site;
use std::alloc::{AllocError, Global};
use std::sync::{Mutex, Wait};

/// A site of files of real JavaScript, stylesheets, data and pages, which all threads of a server share.
/// It takes memory for the files: of those that are served no more, and that plans of pages name, at most
/// 256 MiB with the served ones together; and for the last 1,024 plans.
#[derive(Drop)]
pub struct ScriptSite<F: Drop> {
    pub(crate) files: F,
    pub(crate) client: &'static [u8],
    pub(crate) port: u16,
    pub(crate) run: u64,
    pub(crate) state: Mutex<SiteState>,
}

impl<F: Files + Drop> ScriptSite<F> {
    /// The site of a server at this port of this machine, of no modules. `files` are those of the folder:
    /// what isn't kept as a module is looked for there. `client` is the text of the page's client, and
    /// `run` a number by which a page tells that it is of another run of the server.
    pub fn new(alloc: Global, files: F, client: &'static [u8], port: u16, run: u64) -> ScriptSite<F>
        ensures files { result.files ≡ files }
        ensures client { result.client.now ≡ client.now }
        ensures port { result.port ≡ port }
        ensures run { result.run ≡ run }
    {
        ScriptSite {
            files,
            client,
            port,
            run,
            state: Mutex::new(SiteState::new(alloc)),
        }
    }
}

impl<F: Files + Drop> Site for ScriptSite<F> {
    type File = ReadFile;

    fn body_length(&self, head: &[u8]) -> Option<usize> {
        body_length(head, self.port)
    }

    /// Which heads are refused, whose posts are taken and how an answer is written is as `live_answers`
    /// says; what is at a path isn't told.
    fn answer<R: Wait>(
        &self,
        rt: &R,
        alloc: Global,
        head: &[u8],
        body: &[u8],
    ) -> Result<Answer, AllocError>
        ensures { IfOk result
            (AnswersHead self.now.port gives_anything takes_anything head.now body.now) }
    {
        let paths = SitePaths { rt, site: self };
        answer_head(alloc, &paths, self.port, head, body)
    }

    fn read(
        &self,
        alloc: Global,
        name: &ModName,
        version: Ver,
        text: &[u8],
    ) -> Result<ReadFile, AllocError> {
        let folder = NamedFiles {
            alloc,
            files: &self.files,
        };
        read_file(alloc, &folder, name, version, text)
    }

    fn core_text(&self, alloc: Global, file: &ReadFile) -> Result<Option<Vec<u8>>, AllocError>
        ensures short { IfOk result (λ told. ForSome told IsShort) }
    {
        match &file.skeleton {
            Some(skeleton) => short_copy(alloc, skeleton),
            None => Ok(None),
        }
    }

    fn keep<R: Wait>(
        &self,
        rt: &R,
        name: &ModName,
        version: Ver,
        file: Option<ReadFile>,
    ) -> Result<(), AllocError> {
        match file {
            Some(read) => {
                let ReadFile { skeleton: _, file } = read;
                self.state.lock(rt).keep(name, version, file)
            }
            None => {
                self.state.lock(rt).remove(name);
                Ok(())
            }
        }
    }

    fn settle<R: Wait>(&self, rt: &R, version: Ver) {
        self.state.lock(rt).settle(version);
    }

    fn line<R: Wait>(
        &self,
        rt: &R,
        alloc: Global,
        name: &ModName,
        line: u32,
    ) -> Result<Option<Text>, AllocError> {
        let read = self.state.lock(rt).last_read(name)?;
        match read {
            Some(file) => Ok(Some(line_at(alloc, &file.text, line)?)),
            None => Ok(None),
        }
    }

    fn imported_names<R: Wait>(
        &self,
        rt: &R,
        alloc: Global,
        name: &ModName,
        version: Ver,
    ) -> Result<Vec<ImportedName>, AllocError> {
        let file = self.state.lock(rt).file_at(name, version)?;
        match file {
            Some(file) => names_imported(alloc, name, &file),
            None => Ok(Vec::new(alloc)),
        }
    }
}

// A text once more; None where it is longer than a core takes.
fn short_copy(alloc: Global, text: &[u8]) -> Result<Option<Vec<u8>>, AllocError>
    ensures { IfOk result (λ told. ForSome told IsShort) }
{
    if text.len() > TEXT_BYTES {
        return Ok(None);
    }
    Ok(Some(Vec::from_slice(alloc, text)?))
}
