// What changed between two looks at a folder.
ghost use Rattle.std.specs.Prelude.{◌≡◌, List, ℕ, IfOk, OnOk, IfSome, map, Some, None, cond, is_some, []};
ghost use Rattle.std.specs.Option.{option_copied, option_map};
ghost use Rattle.hmr_types.specs.ModName.{is_text};
ghost use Rattle.folders.specs.Files.{text_at};
ghost use Rattle.folder_watch.specs.Edits.{AreEdits, change, change_to, edit_at, edited, rows_of};
ghost use Rattle.folder_watch.specs.Listings.{Rises};

use crate::Listing;
use hmr_types::{ModName, Sequence};
use std::alloc::{AllocError, Global};
use std::collections::BTreeMap;

/// The edits, in order of their names, that turn the sources of one listing into those of another: for
/// each name whose text differs, or that one of them lacks, the text of the new listing, or None where it
/// has none. `AllocError` where memory ran out. The time is linear in the texts, but for the logarithm of
/// the names.
#[tactic(auto, using(crate::proofs::Editing::becomes))]
pub fn edits_between(
    alloc: Global,
    old: &Listing,
    new: &Listing,
) -> Result<Vec<(ModName, Option<Vec<u8>>)>, AllocError>
    ensures rising { IfOk result (λ edits. Rises edits.items) }
    ensures exact { IfOk result (λ edits. AreEdits old.now new.now (rows_of edits.items)) }
    ensures becomes { IfOk result (λ edits. (name : List ℕ)
        → edited (edit_at (rows_of edits.items) name) (text_at old.now name) ≡ text_at new.now name) }
{
    let mut edits = BTreeMap::new(alloc);
    put_changed(alloc, old, new, &mut edits)?;
    put_removed(old, new, &mut edits)?;
    let edits = in_order(alloc, edits)?;
    Ok(edits)
}

// The edits as rows, in order of their names.
fn in_order(
    alloc: Global,
    edits: BTreeMap<ModName, Option<Vec<u8>>>,
) -> Result<Vec<(ModName, Option<Vec<u8>>)>, AllocError>
    ensures rows { IfOk result (λ rows. rows.items ≡ edits.entries) }
    ensures rising { IfOk result (λ rows. Rises rows.items) }
{
    let mut rows = Vec::new(alloc);
    for (name, edit) in edits {
        rows.push((name, edit))?;
    }
    Ok(rows)
}

// The edits of the names that the new listing has.
fn put_changed(
    alloc: Global,
    old: &Listing,
    new: &Listing,
    edits: &mut BTreeMap<ModName, Option<Vec<u8>>>,
) -> Result<(), AllocError>
    requires none { edits.old.entries ≡ [] }
    ensures { OnOk result ((name : List ℕ) → edit_at (rows_of edits.new.entries) name
        ≡ change_to (text_at old.now name) (text_at new.now name)) }
{
    for (name, text) in new.files() {
        if differs(old.text(name), text.as_slice()) {
            let text = Vec::from_slice(alloc, text.as_slice())?;
            put(edits, name.clone()?, Some(text))?;
        }
    }
    Ok(())
}

// The edits of the names that the old listing alone has.
fn put_removed(
    old: &Listing,
    new: &Listing,
    edits: &mut BTreeMap<ModName, Option<Vec<u8>>>,
) -> Result<(), AllocError>
    requires changed { (name : List ℕ) → edit_at (rows_of edits.old.entries) name
        ≡ change_to (text_at old.now name) (text_at new.now name) }
    ensures { OnOk result ((name : List ℕ) → edit_at (rows_of edits.new.entries) name
        ≡ change (text_at old.now name) (text_at new.now name)) }
{
    for (name, _) in old.files() {
        if new.text(name).is_none() {
            put(edits, name.clone()?, None)?;
        }
    }
    Ok(())
}

// Puts the edit of a name.
fn put(
    edits: &mut BTreeMap<ModName, Option<Vec<u8>>>,
    name: ModName,
    edit: Option<Vec<u8>>,
) -> Result<(), AllocError>
    ensures { OnOk result ((other : List ℕ) → edit_at (rows_of edits.new.entries) other
        ≡ cond (is_text name other) (Some (option_map (λ text. text.items) edit))
        (edit_at (rows_of edits.old.entries) other)) }
{
    edits.insert(name, edit)?;
    Ok(())
}

// Whether there was no text, or another.
fn differs(old: Option<&[u8]>, new: &[u8]) -> bool
    ensures { result ≡ is_some (change_to (option_copied old.entry) (Some new.now)) }
{
    match old {
        Some(old) => old != new,
        None => true,
    }
}
