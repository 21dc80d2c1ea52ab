// What static analysis tells of a module. Its specifiers are read first, in the order of the text,
// since the first that means no module goes before every other fault.
ghost use Rattle.std.specs.List.{list_any};
ghost use Rattle.std.specs.Prelude.{◌≡◌, IfOk, filter, flat_map, map};
ghost use Rattle.module_tree.specs.Tree.{item_of, module_of};
ghost use Rattle.module_semantics.specs.Analysis.{analysed, exported_by, firsts, is_decline, is_own};
ghost use Rattle.module_semantics.specs.Entries.{has_name};
ghost use Rattle.import_scan.specs.Analysing.{analysis_with, scan_fault};
ghost use Rattle.import_scan.specs.Fault.{Gives};
ghost use Rattle.import_scan.specs.Scanning.{add_among, meant_of};

use crate::specifiers::{Meant, meant_in};
use hmr_types::limits::IMPORTS;
use hmr_types::{Analysis, ModName, Name, Sequence, SpecFault};
use module_semantics::ScanFault;
use module_tree::{Item, Module};
use std::alloc::{AllocError, Global};

/// The analysis of a module of the name `base`: its imports and the imports that it accepts, each
/// once, in the order of their first occurrence, and its exports in order.
///
/// `Spec` comes exactly where a specifier of an import or an accept means no module, with the refusal
/// of the first such; else `TooManyImports` exactly where more than 256 different modules are imported.
/// `NoMemory` may come in place of any answer. It takes time linear in the tree, but for the look-up of
/// imported names, of which there are at most 256.
pub fn analyse(alloc: Global, base: &ModName, tree: &Module) -> Result<Analysis, ScanFault>
    ensures { Gives result (analysed base.now (module_of tree.now)) }
{
    let meant = match meant_in(alloc, base, &tree.items) {
        Ok(meant) => meant,
        Err(fault) => return Err(scan_fault(fault)),
    };
    if meant.imported.len() > IMPORTS {
        return Err(ScanFault::TooManyImports);
    }
    match analysis_with(alloc, meant, &tree.items) {
        Ok(analysis) => Ok(analysis),
        Err(_) => Err(ScanFault::NoMemory),
    }
}

/// The refusal of a specifier as one of the analysis.
fn scan_fault(fault: SpecFault) -> ScanFault
    ensures { result ≡ scan_fault fault }
{
    match fault {
        SpecFault::NoMemory => ScanFault::NoMemory,
        _ => ScanFault::Spec(fault),
    }
}

/// The analysis of items whose specifiers mean this.
#[tactic(auto, using(crate::proofs::Items::any_of_map))]
fn analysis_with(alloc: Global, meant: Meant, items: &[Item]) -> Result<Analysis, AllocError>
    ensures { IfOk result (λ analysis. analysis ≡ analysis_with (meant_of meant) (map item_of items.now)) }
{
    let accepted = among(alloc, &meant.accepted, &meant.imported)?;
    Ok(Analysis {
        imports: Sequence::from_vec(meant.imported),
        exports: Sequence::from_vec(exports(alloc, items)?),
        self_accepts: accepts_itself(items),
        accepted: Sequence::from_vec(accepted),
        declined: declines(items),
    })
}

/// Those of the names that are among the others, each once, where it comes first.
fn among(alloc: Global, names: &[ModName], others: &[ModName]) -> Result<Vec<ModName>, AllocError>
    ensures { IfOk result (λ found. found.items ≡ filter (λ n. has_name n others.now) (firsts names.now)) }
{
    let mut found = Vec::new(alloc);
    for name in names {
        add_among(&mut found, name, others)?;
    }
    Ok(found)
}

/// One more name behind those that came, where it is new and among the others.
fn add_among(came: &mut Vec<ModName>, name: &ModName, others: &[ModName]) -> Result<(), AllocError>
    ensures { IfOk result (λ _. came.new.items ≡ add_among others.now came.old.items name.now) }
{
    let taken = others.contains(name) && !came.contains(name);
    if taken {
        came.push(name.clone()?)?;
    }
    Ok(())
}

/// The names that these items export, in order.
fn exports(alloc: Global, items: &[Item]) -> Result<Vec<Name>, AllocError>
    ensures { IfOk result (λ names. names.items ≡ flat_map exported_by (map item_of items.now)) }
{
    let mut names = Vec::new(alloc);
    for item in items {
        if let Item::Declare {
            exported: true,
            mutable: _,
            name,
            value: _,
        } = item
        {
            names.push(name.clone()?)?;
        }
    }
    Ok(names)
}

/// Whether one of these items accepts the module itself.
fn accepts_itself(items: &[Item]) -> bool
    ensures { result ≡ list_any (λ i. is_own (item_of i)) items.now }
{
    items.iter().any(is_own)
}

fn is_own(item: &Item) -> bool
    ensures { result ≡ is_own (item_of item.now) }
{
    matches!(item, Item::Own(_))
}

/// Whether one of these items is a decline.
fn declines(items: &[Item]) -> bool
    ensures { result ≡ list_any (λ i. is_decline (item_of i)) items.now }
{
    items.iter().any(is_decline)
}

fn is_decline(item: &Item) -> bool
    ensures { result ≡ is_decline (item_of item.now) }
{
    matches!(item, Item::Decline)
}
