// A text that was fetched is read: its tree, and what analysis tells of it.
ghost use Rattle.std.specs.Prelude.{◌≡◌, ◌≤◌, length, IfOk};
ghost use Rattle.module_semantics.specs.ModuleText.{parsing};
ghost use Rattle.module_semantics.specs.Analysis.{analysed, outcome_of, scan_outcome};
ghost use Rattle.module_tree.specs.Tree.{module_of};
ghost use Rattle.fetched_texts.specs.Reads.{IsRead, IsTree};

use client_plan::Parsed;
use hmr_types::ModName;
use hot_parser::parse;
use import_scan::{ScanFault, analyse};
use module_tree::Module;
use std::alloc::{AllocError, Global};

/// Reads the text of a module of this name: None where it is no module. It takes time linear in the text,
/// but for the look-up of imported names, of which there are at most 256.
pub(crate) fn read(alloc: Global, name: &ModName, text: &[u8]) -> Result<Option<Parsed>, AllocError>
    requires short { length text.now ≤ 4294967294 }
    ensures { IfOk result (IsRead name.now (parsing text.now)) }
{
    match parse(alloc, text) {
        Ok(tree) => read_tree(alloc, name, tree),
        Err(fault) => match fault.text_fault() {
            Some(_) => Ok(None),
            None => Err(AllocError),
        },
    }
}

// A tree with its analysis: None where a specifier means no module, or too many are imported.
fn read_tree(alloc: Global, name: &ModName, tree: Module) -> Result<Option<Parsed>, AllocError>
    ensures { IfOk result (IsTree (module_of tree) (scan_outcome (analysed name.now (module_of tree)))) }
{
    match analyse(alloc, name, &tree) {
        Ok(analysis) => Ok(Some(Parsed { tree, analysis })),
        Err(ScanFault::NoMemory) => Err(AllocError),
        Err(_) => Ok(None),
    }
}
