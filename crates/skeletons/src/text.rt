// The skeleton of a text, by its scan.
ghost use Rattle.std.specs.Prelude.{◌≡◌, ◌≤◌, ◌<◌, ◌+◌, ◌^◌, IfOk, List, Ok, Result, length, ℕ};
ghost use Rattle.hmr_types.specs.declared.limits.TheConstants.{LARGEST_NUMBER};
ghost use Rattle.module_semantics.specs.Analysis.{transformed};
ghost use Rattle.module_semantics.specs.ModuleText.{parsing};
ghost use Rattle.es_scan.specs.declared.fault.Fault.{Fault};
ghost use Rattle.es_scan.specs.declared.outline.Outline.{Outline};
ghost use Rattle.skeletons.specs.Refusing.{refusal, text_with};
ghost use Rattle.skeletons.specs.Texts.{outcome, skeleton_text};

use crate::following::shown;
use crate::refusal::{refusal, text_with};
use crate::tree::skeleton_tree;
use es_scan::{Fault, FaultKind, Outline};
use hmr_types::ModName;
use hot_printer::print;
use std::alloc::{AllocError, Global};

/// The skeleton of the text of the module `name`, by its scan: a text of the module language of which the core
/// learns just what the scan tells.
///
/// It imports the modules of the folder to which the module's specifiers lead, first those of import and
/// export declarations and then those of calls `import("..")`, each once and in the order of the text; bare
/// specifiers and URLs are the browser's, and make no import. It accepts those of them that the text accepts,
/// and itself, and it declines, as the text does. It names no export. Where the text imports more than 256
/// modules of the folder, what the core learns is that they are too many. Where the scan refuses the text, it
/// is the same fault at the same line and column, of which each is 65,000 at most.
///
/// The stamp is a count of the file's changes. Skeletons of different stamps differ, so that each change of a
/// file is an edit. It fails only where memory runs out, or where the scan ran out of it. It takes time and
/// memory linear in the text and the scan, but for the look-up of imported names, of which there are at most
/// 257.
pub fn skeleton(
    alloc: Global,
    name: &ModName,
    stamp: u64,
    text: &[u8],
    scan: &Result<Outline, Fault>,
) -> Result<Vec<u8>, AllocError>
    requires stamp { stamp ≤ LARGEST_NUMBER }
    requires short { length text.now + 1 < 2 ^ 32 }
    ensures text { IfOk result (λ made. made.items ≡ skeleton_text stamp name.now text.now scan.now) }
    ensures outcome { IfOk result
        (λ made. (base : List ℕ) →
        transformed parsing base made.items ≡ outcome name.now text.now scan.now) }
{
    let made = made(alloc, name, stamp, text, scan)?;
    Ok(made)
}

/// The bytes of a skeleton.
fn made(
    alloc: Global,
    name: &ModName,
    stamp: u64,
    text: &[u8],
    scan: &Result<Outline, Fault>,
) -> Result<Vec<u8>, AllocError>
    requires short { length text.now + 1 < 2 ^ 32 }
    ensures { IfOk result (λ made. made.items ≡ skeleton_text stamp name.now text.now scan.now) }
{
    match scan {
        Ok(outline) => told_text(alloc, name, stamp, text, outline),
        Err(fault) => refused_text(alloc, stamp, text, fault),
    }
}

/// The skeleton of a text that the scan takes.
fn told_text(
    alloc: Global,
    name: &ModName,
    stamp: u64,
    text: &[u8],
    outline: &Outline,
) -> Result<Vec<u8>, AllocError>
    ensures { IfOk result
        (λ made. made.items ≡ skeleton_text stamp name.now text.now (Ok outline.now)) }
{
    let told = shown(alloc, name, text, outline)?;
    let tree = skeleton_tree(alloc, stamp, &told)?;
    print(alloc, &tree)
}

/// The skeleton of a text that the scan refuses.
fn refused_text(
    alloc: Global,
    stamp: u64,
    text: &[u8],
    fault: &Fault,
) -> Result<Vec<u8>, AllocError>
    requires short { length text.now + 1 < 2 ^ 32 }
    ensures { IfOk result
        (λ made. made.items ≡ text_with stamp (refusal text.now fault.now)) }
{
    match fault.kind {
        FaultKind::OutOfMemory => Err(AllocError),
        _ => text_with(alloc, stamp, &refusal(text, fault)),
    }
}

/// A skeleton tells its stamp, whichever texts and scans two of them are of.
pub fn skeletons_tell_their_stamps()
    ensures { (stamp other : ℕ) (name another text change : List ℕ) (scan next : Result Outline Fault)
        → stamp ≤ LARGEST_NUMBER → other ≤ LARGEST_NUMBER
        → skeleton_text stamp name text scan ≡ skeleton_text other another change next → stamp ≡ other }
{}
