// The modules of a version map as a site: under the name of each that is served stands its rewritten text.
ghost use Rattle.std.specs.Prelude.{◌≡◌, ◌≤◌, IfOk, length, option_map};
ghost use Rattle.core_model.specs.Names.{at};
ghost use Rattle.http_modules.specs.Rewriting.{body_of, rewritten_text, served_text};
ghost use Rattle.module_semantics.specs.ModuleText.{parsing};

use crate::rewriting::rewrite;
use hmr_types::{ModName, NameFault};
use hot_parser::{parse, print};
use http_exchange::Site;
use std::alloc::{AllocError, Global};
use version_map::VersionMap;

/// What is served of a version map.
#[derive(Clone, Copy)]
pub struct Modules<'a> {
    pub map: &'a VersionMap,
}

impl<'a> Site for Modules<'a> {
    ghost use Rattle.http_modules.specs.Rewriting.{body_of};

    ghost bodies = { λ modules. body_of modules.map.now };

    fn body(&self, alloc: Global, name: &[u8]) -> Result<Option<Vec<u8>>, AllocError> {
        match ModName::read(alloc, name) {
            Ok(name) => served_text(alloc, &name, self.map),
            Err(NameFault::NotAName) => Ok(None),
            Err(NameFault::NoMemory) => Err(AllocError),
        }
    }
}

/// The rewritten text of what is served of the name. It takes time in proportion to the text.
fn served_text(
    alloc: Global,
    name: &ModName,
    map: &VersionMap,
) -> Result<Option<Vec<u8>>, AllocError>
    ensures { IfOk result
        (λ body. option_map (λ b. b.items) body ≡ served_text name.now map.now (at map.now.served name.now)) }
{
    match map.served(name) {
        Some(served) => rewritten_text(alloc, name, served.text.as_slice(), map),
        None => Ok(None),
    }
}

fn rewritten_text(
    alloc: Global,
    name: &ModName,
    text: &[u8],
    map: &VersionMap,
) -> Result<Option<Vec<u8>>, AllocError>
    requires short { length text.now ≤ 4294967294 }
    ensures { IfOk result
        (λ body. option_map (λ b. b.items) body ≡ rewritten_text name.now map.now (parsing text.now)) }
{
    match parse(alloc, text) {
        Ok(tree) => {
            let rewritten = rewrite(alloc, name, tree, map)?;
            let text = print(alloc, &rewritten)?;
            Ok(Some(text))
        }
        Err(fault) => match fault.text_fault() {
            Some(_) => Ok(None),
            None => Err(AllocError),
        },
    }
}
