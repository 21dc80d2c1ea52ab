// What is at the paths of a site, and what becomes of what is posted there.
ghost use Rattle.script_site.specs.Anything.{gives_anything, takes_anything};

use crate::about::{asked_modules, report_of};
use crate::folder::NamedFiles;
use crate::plans::{check_text, fault_sentence};
use crate::query::{WantedInstance, plan_in, wanted_instance};
use crate::scanned::Scan;
use crate::sending::{PlainUrls, file_sent, page_sent};
use crate::site::ScriptSite;
use crate::site_state::Served;
use file_names::module_name;
use hmr_types::{ModName, NameFault};
use instance_urls::PlanId;
use live_answers::{Files, Found, Media, Paths, Posted};
use serde_json::Value;
use std::alloc::{AllocError, Global};
use std::collections::BTreeMap;
use std::sync::Wait;
use told_plans::{PlanFault, read_plan};

/// A site and the handle by which its lock is waited for.
pub(crate) struct SitePaths<'a, R: Wait, F: Drop> {
    pub rt: &'a R,
    pub site: &'a ScriptSite<F>,
}

impl<R: Wait, F: Drop> Drop for SitePaths<'_, R, F> {
    fn drop(self) {
        let Self { rt: _, site: _ } = self;
    }
}

impl<R: Wait, F: Files + Drop> Paths for SitePaths<'_, R, F> {
    ghost gives = { λ _. gives_anything };

    ghost takes = { λ _. takes_anything };

    fn get(
        &self,
        alloc: Global,
        path: &[u8],
        query: &[u8],
        wants_page: bool,
    ) -> Result<Found, AllocError> {
        if let Some(own) = path.strip_prefix(b"/@hmr/") {
            return self.client_path(alloc, own);
        }
        match wanted_instance(query) {
            WantedInstance::Plain => self.plain(alloc, path, wants_page),
            WantedInstance::Made(id) => self.made(alloc, path, id),
            WantedInstance::Unknown => Ok(Found::Missing),
        }
    }

    fn post(&self, alloc: Global, path: &[u8], body: &[u8]) -> Result<Posted, AllocError> {
        match path {
            b"/@hmr/plan" => self.take_plan(alloc, body),
            b"/@hmr/about" => self.tell_about(alloc, body),
            b"/@hmr/wake" => Ok(Posted::Ring),
            _ => Ok(Posted::Missing),
        }
    }
}

impl<R: Wait, F: Files + Drop> SitePaths<'_, R, F> {
    // What is at a plain URL: what is served of the module there, else the file, else for who wants a
    // page the one at the top. A browser asks for `/favicon.ico` unbidden, so there an icon of no bytes
    // keeps the page's console free of a fault.
    fn plain(&self, alloc: Global, path: &[u8], wants_page: bool) -> Result<Found, AllocError> {
        if let Some(found) = self.served(alloc, path)? {
            return Ok(found);
        }
        match self.site.files.find(alloc, path)? {
            Found::Missing if path == b"/favicon.ico".as_slice() => Ok(Found::File(Vec::new(
                alloc,
            ))),
            Found::Missing if wants_page => self.top_page(alloc),
            found => Ok(found),
        }
    }

    fn top_page(&self, alloc: Global) -> Result<Found, AllocError> {
        match self.served(alloc, b"/index.html")? {
            Some(found) => Ok(found),
            None => Ok(Found::Missing),
        }
    }

    // What is served of the module at a path; None where there is none.
    fn served(&self, alloc: Global, path: &[u8]) -> Result<Option<Found>, AllocError> {
        let Some(name) = name_at(alloc, path)? else {
            return Ok(None);
        };
        let served = self.site.state.lock(self.rt).serve(&name, self.site.run)?;
        match served {
            Some(served) => Ok(Some(served_text(alloc, &name, &served)?)),
            None => Ok(None),
        }
    }

    // The instance of a module that a plan made.
    fn made(&self, alloc: Global, path: &[u8], id: PlanId) -> Result<Found, AllocError> {
        let Some(name) = name_at(alloc, path)? else {
            return Ok(Found::Missing);
        };
        let state = self.site.state.lock(self.rt);
        let Some(plan) = state.plan(id) else {
            return Ok(Found::Missing);
        };
        let Some(version) = plan.version(&name) else {
            return Ok(Found::Missing);
        };
        match state.file_at(&name, version)? {
            Some(file) => file_sent(alloc, &name, &file, plan),
            None => Ok(Found::Missing),
        }
    }

    // What is at a path of the page's client, which is told without `/@hmr/`.
    fn client_path(&self, alloc: Global, path: &[u8]) -> Result<Found, AllocError> {
        match path {
            b"client.js" => script(Vec::from_slice(alloc, self.site.client)?),
            b"stop.js" => script(Vec::from_slice(alloc, b"throw globalThis.__hmr.stop;")?),
            b"run" => self.run(alloc),
            _ => self.client_path_below(alloc, path),
        }
    }

    fn client_path_below(&self, alloc: Global, path: &[u8]) -> Result<Found, AllocError> {
        if let Some(plan) = path.strip_prefix(b"check/") {
            return self.check(alloc, plan);
        }
        match path.strip_prefix(b"file") {
            Some(file) if file.starts_with(b"/") => self.site.files.find(alloc, file),
            _ => Ok(Found::Missing),
        }
    }

    // The run, and the largest number up to which every edit has its result.
    fn run(&self, alloc: Global) -> Result<Found, AllocError> {
        let run = self.site.run;
        let count = self.site.state.lock(self.rt).settled();
        let text = format!(in alloc; "{{\"count\":{count},\"run\":{run}}}")?;
        Ok(Found::Text {
            media: Media::Json,
            bytes: text.into_bytes(),
        })
    }

    // The module that checks a plan.
    fn check(&self, alloc: Global, plan: &[u8]) -> Result<Found, AllocError> {
        let Some(id) = plan_in(plan) else {
            return Ok(Found::Missing);
        };
        let state = self.site.state.lock(self.rt);
        match state.plan(id) {
            Some(plan) => script(check_text(alloc, plan)?),
            None => Ok(Found::Missing),
        }
    }

    fn take_plan(&self, alloc: Global, body: &[u8]) -> Result<Posted, AllocError> {
        match read_plan(alloc, body) {
            Ok(plan) => {
                self.site.state.lock(self.rt).keep_plan(plan)?;
                Ok(Posted::Done)
            }
            Err(PlanFault::NoMemory) => Err(AllocError),
            Err(fault) => Ok(Posted::Bad(fault_sentence(fault))),
        }
    }

    // Tells about each module that is asked about, at its version.
    fn tell_about(&self, alloc: Global, body: &[u8]) -> Result<Posted, AllocError> {
        let Some(modules) = asked_modules(alloc, body)? else {
            return Ok(Posted::Bad(
                "The body is to be JSON with `made`, an object of names with versions.",
            ));
        };
        let folder = NamedFiles {
            alloc,
            files: &self.site.files,
        };
        let mut reports = BTreeMap::new(alloc);
        for asked in &modules {
            let file = self
                .site
                .state
                .lock(self.rt)
                .file_at(&asked.name, asked.version)?;
            let report = match file {
                Some(file) => report_of(alloc, &asked.name, &file, &folder)?,
                None => Value::Null,
            };
            reports.insert(String::from_str(alloc, asked.name.as_str())?, report)?;
        }
        Ok(Posted::Text(Value::Object(reports).to_vec(alloc)?))
    }
}

// The name of the module at a path; None where there can be none.
fn name_at(alloc: Global, path: &[u8]) -> Result<Option<ModName>, AllocError> {
    match module_name(alloc, path) {
        Ok(name) => Ok(Some(name)),
        Err(NameFault::NotAName) => Ok(None),
        Err(NameFault::NoMemory) => Err(AllocError),
    }
}

fn served_text(alloc: Global, name: &ModName, served: &Served) -> Result<Found, AllocError> {
    match (&served.file.scan, served.tag) {
        (Scan::Page(page), Some(tag)) => page_sent(alloc, name, &served.file.text, page, tag),
        _ => file_sent(alloc, name, &served.file, &PlainUrls {}),
    }
}

fn script(bytes: Vec<u8>) -> Result<Found, AllocError> {
    Ok(Found::Text {
        media: Media::JavaScript,
        bytes,
    })
}
