// The skeleton of a module that isn't JavaScript, by the list of what it imports.
ghost use Rattle.std.specs.Prelude.{◌≡◌, ◌≤◌, ◌+◌, IfOk, List, take, true, ℕ};
ghost use Rattle.std.specs.List.{list_all};
ghost use Rattle.hmr_types.specs.ModName.{is_name};
ghost use Rattle.hmr_types.specs.declared.limits.TheConstants.{IMPORTS, LARGEST_NUMBER};
ghost use Rattle.module_semantics.specs.Analysis.{transformed};
ghost use Rattle.module_semantics.specs.Analysis as analyses;
ghost use Rattle.module_semantics.specs.ModuleText.{parsing};
ghost use Rattle.skeletons.specs.Lists.{list_outcome, list_shown, list_text};

use crate::following::{add_import, among};
use crate::tree::skeleton_tree;
use hmr_types::{Analysis, ModName, Sequence};
use hot_printer::print;
use std::alloc::{AllocError, Global};

/// The skeleton of a module that isn't JavaScript, as a page or a stylesheet: a text of the module language of
/// which the core learns that it imports these modules, each once and in their order, and accepts those of them
/// that are among `accepts`. Where these are more than 256, what the core learns is that they are too many.
///
/// The stamp is a count of the file's changes, as that of [`skeleton`](crate::skeleton). It fails only where
/// memory runs out. It takes time and memory linear in the lists, but for the look-up of imported names, of
/// which there are at most 257.
pub fn list_skeleton(
    alloc: Global,
    stamp: u64,
    imports: &[ModName],
    accepts: &[ModName],
) -> Result<Vec<u8>, AllocError>
    requires stamp { stamp ≤ LARGEST_NUMBER }
    ensures text { IfOk result (λ made. made.items ≡ list_text stamp imports.now accepts.now) }
    ensures outcome { IfOk result
        (λ made. (base : List ℕ) →
        transformed parsing base made.items ≡ list_outcome imports.now accepts.now) }
{
    note_names(imports);
    let made = made(alloc, stamp, imports, accepts)?;
    Ok(made)
}

/// The bytes of the skeleton.
fn made(
    alloc: Global,
    stamp: u64,
    imports: &[ModName],
    accepts: &[ModName],
) -> Result<Vec<u8>, AllocError>
    ensures { IfOk result (λ made. made.items ≡ list_text stamp imports.now accepts.now) }
{
    let told = listed(alloc, imports, accepts)?;
    let tree = skeleton_tree(alloc, stamp, &told)?;
    print(alloc, &tree)
}

/// What is told of the lists.
fn listed(alloc: Global, imports: &[ModName], accepts: &[ModName]) -> Result<Analysis, AllocError>
    ensures { IfOk result (λ told. told ≡ list_shown imports.now accepts.now) }
{
    let imports = first_names(alloc, imports)?;
    let accepted = among(alloc, &imports, accepts)?;
    Ok(Analysis {
        imports: Sequence::from_vec(imports),
        exports: Sequence::new(alloc),
        self_accepts: false,
        accepted: Sequence::from_vec(accepted),
        declined: false,
    })
}

/// The names, each once; of more than 256 the first 257.
fn first_names(alloc: Global, names: &[ModName]) -> Result<Vec<ModName>, AllocError>
    ensures { IfOk result (λ made. made.items ≡ take (IMPORTS + 1) (analyses.firsts names.now)) }
{
    let mut made = Vec::new(alloc);
    for name in names {
        let again = name.clone()?;
        add_import(&mut made, again)?;
    }
    Ok(made)
}

/// Each is the name of a module: a contract sees a name as its bytes alone, and a call of the name tells that
/// they are one.
fn note_names(names: &[ModName])
    ensures { list_all is_name names.now ≡ true }
{
    for name in names {
        note_name(name);
    }
}

fn note_name(name: &ModName)
    ensures { is_name name.now ≡ true }
{
    let _name = name.as_str();
}
