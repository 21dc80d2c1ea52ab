// The modules of a folder as the first edits of a version map. The text of each is transformed as soon as its
// edit is made, so that at the end each text is served that reads as a module.
ghost use Rattle.std.specs.Prelude.{◌≡◌, ◌≢◌, ◌≤◌, ◌<◌, ◌∷◌, [], List, Some, ℕ};
ghost use Rattle.std.specs.Prelude.{IfErr, IfOk, IsErrOf, OnOk, length, true};
ghost use Rattle.std.specs.Option.{option_map};
ghost use Rattle.hmr_base.specs.Causes.{Rose};
ghost use Rattle.hmr_types.specs.declared.limits.TheConstants.{LARGEST_NUMBER, SOURCE_NAMES, TEXT_BYTES};
ghost use Rattle.hmr_types.specs.declared.words.EditRefusal.TheVariants.{NumbersSpent};
ghost use Rattle.module_semantics.specs.Analysis.{transformed};
ghost use Rattle.module_semantics.specs.ModuleText.{parsing};
ghost use Rattle.core_model.specs.Sources as changes;
ghost use Rattle.core_model.specs.Sources.{Change, edit_answer, edit_refused, sources_after};
ghost use Rattle.folders.specs.Files.{MayOpen};
ghost use Rattle.folder_watch.specs.Edits.{rows_of};
ghost use Rattle.version_map.specs.Standing.{StandsFor};
ghost use Rattle.page_command.specs.Folder.{Opens, StopsEarly};
ghost use Rattle.page_command.specs.Opening.{AreAccepted, Edit, IsAccepted, opened, opened_by};
ghost use Rattle.page_command.specs.Stops.{IsEditStop, StopsEdits};

use crate::stop::PageStop;
use command_ends::Limit;
use folder_watch::{Listing, edits_between, scan};
use folders::Tree;
use hmr_types::limits::{SOURCE_NAMES, TEXT_BYTES};
use hmr_types::{EditRefusal, ModName, Ver};
use import_scan::transform;
use std::alloc::{AllocError, Global};
use version_map::{EditFault, EditOutcome, VersionMap};

/// Scans the folder, and makes the edits that bring its modules in order of their names.
pub(crate) fn open_folder<T: Tree>(
    alloc: Global,
    tree: &mut T,
    folder: &str,
) -> Result<VersionMap, PageStop>
    requires may { MayOpen (T.asked tree.old) folder.now }
    ensures opens { IfOk result (λ map. (edits : List Edit) × Opens (T.coming tree.old) edits
        × StandsFor (opened [] edits) map) }
    ensures stops { IfErr result (StopsEarly (T.coming tree.old)) }
    ensures tree_fault { IsErrOf result PageStop.Tree → Rose (T.faults tree.old) (T.faults tree.new) }
    ensures later { T.faults tree.old ≤ T.faults tree.new }
    ensures no_other { MayOpen (T.asked tree.new) folder.now }
{
    let listing = scan(alloc, tree, folder)?;
    let none = Listing::new(alloc);
    let edits = edits_between(alloc, &none, &listing)?;
    let map = open_edits(alloc, edits)?;
    Ok(map)
}

// The map of these edits, each made and settled.
fn open_edits(alloc: Global, edits: Vec<(ModName, Option<Vec<u8>>)>) -> Result<VersionMap, PageStop>
    ensures stands { IfOk result (StandsFor (opened [] (rows_of edits.items))) }
    ensures accepted { OnOk result (AreAccepted [] (rows_of edits.items)) }
    ensures stops { IfErr result (StopsEdits (rows_of edits.items)) }
{
    // Each edit is of another name, so that more of them than names may be are one too many.
    if edits.len() > SOURCE_NAMES {
        return Err(PageStop::Limit(Limit::Names));
    }
    let mut map = VersionMap::new(alloc);
    open_each(alloc, &mut map, edits)?;
    Ok(map)
}

// Makes and settles each edit.
fn open_each(
    alloc: Global,
    map: &mut VersionMap,
    edits: Vec<(ModName, Option<Vec<u8>>)>,
) -> Result<(), PageStop>
    requires fresh { StandsFor [] map.old }
    requires few { length edits.items ≤ SOURCE_NAMES }
    ensures stands { OnOk result (StandsFor (opened [] (rows_of edits.items)) map.new) }
    ensures accepted { OnOk result (AreAccepted [] (rows_of edits.items)) }
    ensures stops { IfErr result (StopsEdits (rows_of edits.items)) }
{
    for (name, text) in edits {
        open_edit(alloc, map, name, text)?;
    }
    Ok(())
}

// Makes and settles an edit, unless it is a removal.
fn open_edit(
    alloc: Global,
    map: &mut VersionMap,
    name: ModName,
    text: Option<Vec<u8>>,
) -> Result<(), PageStop>
    requires made { (past : List Change) × StandsFor past map.old }
    requires unspent { map.old.counted < LARGEST_NUMBER }
    ensures stands { OnOk result ((past : List Change) → StandsFor past map.old
        → StandsFor (opened_by past (name, option_map (λ t. t.items) text)) map.new) }
    ensures accepted { OnOk result ((past : List Change) → StandsFor past map.old
        → IsAccepted past (name, option_map (λ t. t.items) text)) }
    ensures stops { IfErr result (λ stop. (past : List Change) → StandsFor past map.old
        → IsEditStop (edit_answer (sources_after past) name (option_map (λ t. t.items) text)) stop) }
{
    match text {
        Some(text) => open_module(alloc, map, name, text),
        None => Ok(()),
    }
}

// Gives a module its text, and settles it.
fn open_module(
    alloc: Global,
    map: &mut VersionMap,
    name: ModName,
    text: Vec<u8>,
) -> Result<(), PageStop>
    requires made { (past : List Change) × StandsFor past map.old }
    requires unspent { map.old.counted < LARGEST_NUMBER }
    ensures stands { OnOk result ((past : List Change) → StandsFor past map.old
        → StandsFor (opened_by past (name, Some text.items)) map.new) }
    ensures accepted { OnOk result ((past : List Change) → StandsFor past map.old
        → IsAccepted past (name, Some text.items)) }
    ensures stops { IfErr result (λ stop. (past : List Change) → StandsFor past map.old
        → IsEditStop (edit_answer (sources_after past) name (Some text.items)) stop) }
{
    // No text is copied that the map would refuse for its length.
    if text.len() > TEXT_BYTES {
        return Err(PageStop::Limit(Limit::Text));
    }
    let own_name = name.clone()?;
    let own_text = Vec::from_slice(alloc, &text)?;
    match map.edit(name, Some(text)) {
        Ok(EditOutcome::Job(ver)) => {
            settle(alloc, map, own_name, own_text, ver)?;
            Ok(())
        }
        Ok(EditOutcome::Same | EditOutcome::Removed(_)) => Ok(()),
        Err(EditFault::Refused(refusal)) => Err(stop_by(refusal)),
        Err(EditFault::NoMemory) => Err(PageStop::NoMemory),
    }
}

// Transforms a text, and settles it at its version.
fn settle(
    alloc: Global,
    map: &mut VersionMap,
    name: ModName,
    text: Vec<u8>,
    ver: Ver,
) -> Result<(), AllocError>
    requires short { length text.items ≤ TEXT_BYTES }
    ensures { OnOk result ((past : List Change) → StandsFor past map.old → StandsFor
        (changes.result name text.items (transformed parsing name text.items) ver ∷ past) map.new) }
{
    let done = transform(alloc, name, text)?;
    map.settle(done, ver);
    Ok(())
}

// The stop at an edit that is refused. There are too few edits for all numbers to be given.
fn stop_by(refusal: EditRefusal) -> PageStop
    requires { refusal ≢ NumbersSpent }
    ensures { IsEditStop (edit_refused refusal) result }
{
    match refusal {
        EditRefusal::TextTooLong => PageStop::Limit(Limit::Text),
        EditRefusal::TooManyNames => PageStop::Limit(Limit::Names),
        EditRefusal::SourceTotal => PageStop::Limit(Limit::Sources),
        EditRefusal::NumbersSpent => unreachable!(),
    }
}
