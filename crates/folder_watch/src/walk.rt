// A folder is gone through level by level: the folders of one level are listed, their files are read, and
// the folders in them are the next level. A path has at most 255 bytes, so that there are no more levels.
ghost use Rattle.std.specs.Prelude.{◌≡◌, ◌≤◌, ◌+◌, ◌++◌, ◌∷◌, [], List, ℕ, Option, Some};
ghost use Rattle.std.specs.Prelude.{true, false, length, map, All, IfOk, IfErr, IfSome};
ghost use Rattle.std.specs.Prelude.{OnOk, is_some, not, ◌&&◌, string_bytes};
ghost use Rattle.std.specs.List.{list_any};
ghost use Rattle.std.specs.Option.{option_map};
ghost use Rattle.hmr_base.specs.Causes.{Rose};
ghost use Rattle.hmr_types.specs.ModName.{is_name, parts};
ghost use Rattle.folders.specs.Entries.{has_slash, is_there, leads_to, path_of};
ghost use Rattle.folders.specs.Files.{MayOpen, below, files_after, next_files, rest_after};
ghost use Rattle.folder_watch.specs.declared.scan_stop.ScanStop.{ScanStop};
ghost use Rattle.folder_watch.specs.Listings.{AreShort, Rises, most_names};
ghost use Rattle.folder_watch.specs.Pending.{Adds, AddsIf, AreDeep, ArePlaced, paths_of};
ghost use Rattle.folder_watch.specs.Scans.{AreOf, Covers, IsPlaced, IsRoot, IsScanOf};
ghost use Rattle.folder_watch.specs.Scans.{StopsFor, Takes, is_pending};
ghost use Rattle.folder_watch.specs.Watched.{are_looked_into, begins_with_dot, ends_in_js};
ghost use Rattle.folder_watch.specs.Watched.{is_kept, is_open, is_passed};

use crate::folder::Folder;
use crate::{Listing, ScanStop};
use folders::{Entry, Node, Reading, Tree};
use hmr_types::limits::{SOURCE_NAMES, TEXT_BYTES};
use hmr_types::{ModName, NameFault, is_name};
use std::alloc::{AllocError, Global};

/// The most levels of folders: each has a path longer than those of the level above.
const LEVELS: usize = 256;

/// The modules of a folder: the files below it whose names end in `.js`, with their texts. A name that no
/// module may have is passed over, with all below it, and so are folders that begin with a dot and those
/// named `node_modules`. Of files with one name the first that the scan meets counts, and a file that is
/// gone when it is read is no module.
///
/// `TreeFault` comes only where the tree's count of faults rose in this call, `NoMemory` where memory ran
/// out, and the others where the folder passes a limit. The time is linear in the listings and in the
/// bytes that are read, but for the logarithm of the modules.
pub fn scan<T: Tree>(alloc: Global, tree: &mut T, folder: &str) -> Result<Listing, ScanStop>
    requires may { MayOpen (T.asked tree.old) folder.now }
    ensures told { IfOk result
        (λ listing. IfSome (T.coming tree.old) (λ coming. IsScanOf (next_files coming) listing)) }
    ensures rising { IfOk result Rises }
    ensures short { IfOk result AreShort }
    ensures few { IfOk result (λ listing. length listing ≤ most_names) }
    ensures tree_fault { IfErr result (λ stop. stop ≡ ScanStop.TreeFault
        → Rose (T.faults tree.old) (T.faults tree.new)) }
    ensures limits { IfErr result
        (λ stop. IfSome (T.coming tree.old) (λ coming. StopsFor (next_files coming) stop)) }
    ensures later { T.faults tree.old ≤ T.faults tree.new }
    ensures asked { OnOk result (T.asked tree.new ≡ Some folder.now) }
    ensures no_other { MayOpen (T.asked tree.new) folder.now }
    ensures coming { OnOk result (T.coming tree.new ≡ option_map files_after (T.coming tree.old)) }
{
    let dir = tree.open(alloc, folder)?;
    let mut level = Vec::new(alloc);
    add_folder(&mut level, Vec::new(alloc), dir)?;
    look_below(alloc, tree, level)
}

// The modules in the folders of a level and below them.
fn look_below<T: Tree>(
    alloc: Global,
    tree: &mut T,
    mut level: Vec<Folder<T::Dir>>,
) -> Result<Listing, ScanStop>
    ensures told { (files : List (List ℕ × List ℕ)) → T.files tree.old ≡ Some files
        → ArePlaced T.dir_path level.items
        → IsRoot (paths_of level.items) → IfOk result (IsScanOf files) }
    ensures rising { IfOk result Rises }
    ensures short { IfOk result AreShort }
    ensures few { IfOk result (λ listing. length listing ≤ most_names) }
    ensures stops { (files : List (List ℕ × List ℕ)) → T.files tree.old ≡ Some files
        → ArePlaced T.dir_path level.items
        → IfErr result (StopsFor files) }
    ensures tree_fault { IfErr result (λ stop. stop ≡ ScanStop.TreeFault
        → Rose (T.faults tree.old) (T.faults tree.new)) }
    ensures later { T.faults tree.old ≤ T.faults tree.new }
    ensures asked { T.asked tree.new ≡ T.asked tree.old }
    ensures coming { T.coming tree.new ≡ T.coming tree.old }
{
    let mut found = Listing::new(alloc);
    for _depth in 0..LEVELS {
        level = look_into(alloc, tree, level, &mut found)?;
    }
    prove!(found.len() <= SOURCE_NAMES);
    Ok(found)
}

// Lists the folders of a level, and answers those of the next.
fn look_into<T: Tree>(
    alloc: Global,
    tree: &mut T,
    level: Vec<Folder<T::Dir>>,
    found: &mut Listing,
) -> Result<Vec<Folder<T::Dir>>, ScanStop>
    requires few { length found.old ≤ most_names }
    ensures few { OnOk result (length found.new ≤ most_names) }
    ensures deeper { (depth : ℕ) → AreDeep depth level.items
        → IfOk result (λ next. AreDeep (depth + 1) next.items) }
    ensures placed { (files : List (List ℕ × List ℕ)) → T.files tree.old ≡ Some files
        → ArePlaced T.dir_path level.items
        → IfOk result (λ next. ArePlaced T.dir_path next.items) }
    ensures covers { (files : List (List ℕ × List ℕ)) → T.files tree.old ≡ Some files
        → ArePlaced T.dir_path level.items
        → IfOk result (λ next. Covers files (is_pending (paths_of level.items))
        found.old [] found.new (paths_of next.items)) }
    ensures stops { (files : List (List ℕ × List ℕ)) → T.files tree.old ≡ Some files
        → ArePlaced T.dir_path level.items
        → AreOf files found.old → IfErr result (StopsFor files) }
    ensures tree_fault { IfErr result (λ stop. stop ≡ ScanStop.TreeFault
        → Rose (T.faults tree.old) (T.faults tree.new)) }
    ensures later { T.faults tree.old ≤ T.faults tree.new }
    ensures asked { T.asked tree.new ≡ T.asked tree.old }
    ensures files { T.files tree.new ≡ T.files tree.old }
    ensures coming { T.coming tree.new ≡ T.coming tree.old }
{
    let mut next = Vec::new(alloc);
    for folder in level {
        list_folder(alloc, tree, &folder, found, &mut next)?;
    }
    Ok(next)
}

// Lists a folder, reads its modules and adds the folders in it.
fn list_folder<T: Tree>(
    alloc: Global,
    tree: &mut T,
    folder: &Folder<T::Dir>,
    found: &mut Listing,
    next: &mut Vec<Folder<T::Dir>>,
) -> Result<(), ScanStop>
    requires few { length found.old ≤ most_names }
    ensures few { OnOk result (length found.new ≤ most_names) }
    ensures deeper { (depth : ℕ) → depth ≤ length folder.now.path.items
        → AreDeep (depth + 1) next.old.items
        → OnOk result (AreDeep (depth + 1) next.new.items) }
    ensures placed { (files : List (List ℕ × List ℕ)) → T.files tree.old ≡ Some files
        → T.dir_path folder.now.dir ≡ folder.now.path.items
        → ArePlaced T.dir_path next.old.items → OnOk result (ArePlaced T.dir_path next.new.items) }
    ensures covers { (files : List (List ℕ × List ℕ)) → T.files tree.old ≡ Some files
        → T.dir_path folder.now.dir ≡ folder.now.path.items
        → OnOk result (Covers files (λ path. is_some (rest_after folder.now.path.items path))
        found.old (paths_of next.old.items) found.new (paths_of next.new.items)) }
    ensures stops { (files : List (List ℕ × List ℕ)) → T.files tree.old ≡ Some files
        → T.dir_path folder.now.dir ≡ folder.now.path.items
        → AreOf files found.old → IfErr result (StopsFor files) }
    ensures tree_fault { IfErr result (λ stop. stop ≡ ScanStop.TreeFault
        → Rose (T.faults tree.old) (T.faults tree.new)) }
    ensures later { T.faults tree.old ≤ T.faults tree.new }
    ensures asked { T.asked tree.new ≡ T.asked tree.old }
    ensures files { T.files tree.new ≡ T.files tree.old }
    ensures coming { T.coming tree.new ≡ T.coming tree.old }
{
    let entries = tree.list(alloc, &folder.dir)?;
    for entry in entries {
        take_entry(alloc, tree, &folder.path, entry, found, next)?;
    }
    Ok(())
}

// Reads a file that is a module, or adds a folder that is looked into.
fn take_entry<T: Tree>(
    alloc: Global,
    tree: &mut T,
    folder: &[u8],
    entry: Entry<T::Dir, T::File>,
    found: &mut Listing,
    next: &mut Vec<Folder<T::Dir>>,
) -> Result<(), ScanStop>
    requires few { length found.old ≤ most_names }
    requires open { is_open folder.now ≡ true }
    ensures few { OnOk result (length found.new ≤ most_names) }
    ensures deeper { (depth : ℕ) → depth ≤ length folder.now → AreDeep (depth + 1) next.old.items
        → OnOk result (AreDeep (depth + 1) next.new.items) }
    ensures placed { (files : List (List ℕ × List ℕ))
        → IsPlaced T.dir_path T.file_path files folder.now entry
        → ArePlaced T.dir_path next.old.items → OnOk result (ArePlaced T.dir_path next.new.items) }
    ensures covers { (files : List (List ℕ × List ℕ)) → T.files tree.old ≡ Some files
        → IsPlaced T.dir_path T.file_path files folder.now entry
        → OnOk result (Covers files (λ path. leads_to T.dir_path T.file_path path entry.node)
        found.old (paths_of next.old.items) found.new (paths_of next.new.items)) }
    ensures stops { (files : List (List ℕ × List ℕ)) → T.files tree.old ≡ Some files
        → IsPlaced T.dir_path T.file_path files folder.now entry
        → AreOf files found.old → IfErr result (StopsFor files) }
    ensures tree_fault { IfErr result (λ stop. stop ≡ ScanStop.TreeFault
        → Rose (T.faults tree.old) (T.faults tree.new)) }
    ensures later { T.faults tree.old ≤ T.faults tree.new }
    ensures asked { T.asked tree.new ≡ T.asked tree.old }
    ensures files { T.files tree.new ≡ T.files tree.old }
    ensures coming { T.coming tree.new ≡ T.coming tree.old }
{
    let Entry { name, node } = entry;
    let name = name.as_bytes();
    if has_slash(name) {
        return Ok(());
    }
    let path = path_below(alloc, folder, name)?;
    match node {
        Node::File(file) => take_file(alloc, tree, &path, file, found),
        Node::Dir(dir) => Ok(take_folder(next, folder, name, path, dir)?),
    }
}

// Adds a folder that is looked into.
fn take_folder<D: Drop>(
    folders: &mut Vec<Folder<D>>,
    folder: &[u8],
    name: &[u8],
    path: Vec<u8>,
    dir: D,
) -> Result<(), AllocError>
    requires open { is_open folder.now ≡ true }
    requires plain { has_slash name.now ≡ false }
    requires place { path.items ≡ below folder.now name.now }
    ensures { OnOk result (AddsIf (is_kept folder.now name.now)
        (below folder.now name.now) dir folders.old.items folders.new.items) }
{
    if is_kept(name, &path) {
        add_folder(folders, path, dir)?;
    }
    Ok(())
}

// Whether a folder of this name and path is looked into.
fn is_kept(name: &[u8], path: &[u8]) -> bool
    ensures { result ≡ (not (is_passed name.now) && is_name path.now) }
{
    !is_passed(name) && is_name(path)
}

// Reads a file that is a module and wasn't found before.
fn take_file<T: Tree>(
    alloc: Global,
    tree: &mut T,
    path: &[u8],
    file: T::File,
    found: &mut Listing,
) -> Result<(), ScanStop>
    requires few { length found.old ≤ most_names }
    ensures few { OnOk result (length found.new ≤ most_names) }
    ensures reads { (files : List (List ℕ × List ℕ)) → T.files tree.old ≡ Some files
        → T.file_path file ≡ path.now → are_looked_into (parts path.now) ≡ true
        → OnOk result (Takes files path.now found.old found.new) }
    ensures stops { (files : List (List ℕ × List ℕ)) → T.files tree.old ≡ Some files
        → T.file_path file ≡ path.now → are_looked_into (parts path.now) ≡ true
        → AreOf files found.old → IfErr result (StopsFor files) }
    ensures tree_fault { IfErr result (λ stop. stop ≡ ScanStop.TreeFault
        → Rose (T.faults tree.old) (T.faults tree.new)) }
    ensures later { T.faults tree.old ≤ T.faults tree.new }
    ensures asked { T.asked tree.new ≡ T.asked tree.old }
    ensures files { T.files tree.new ≡ T.files tree.old }
    ensures coming { T.coming tree.new ≡ T.coming tree.old }
{
    if !ends_in_js(path) {
        return Ok(());
    }
    let name = match ModName::read(alloc, path) {
        Ok(name) => name,
        Err(NameFault::NotAName) => return Ok(()),
        Err(NameFault::NoMemory) => return Err(ScanStop::NoMemory),
    };
    if found.text(&name).is_some() {
        return Ok(());
    }
    let text = match tree.read(alloc, &file, TEXT_BYTES)? {
        Reading::Text(text) => text,
        Reading::TooLong => return Err(ScanStop::TextTooLong(name)),
        // It was removed since it was listed; the next look doesn't list it.
        Reading::Gone => return Ok(()),
    };
    found.add(name, text)?;
    if found.len() > SOURCE_NAMES {
        return Err(ScanStop::TooManyNames);
    }
    Ok(())
}

fn add_folder<D: Drop>(
    folders: &mut Vec<Folder<D>>,
    path: Vec<u8>,
    dir: D,
) -> Result<(), AllocError>
    requires short { length path.items ≤ 255 }
    requires open { is_open path.items ≡ true }
    ensures { OnOk result (Adds path.items dir folders.old.items folders.new.items) }
{
    folders.push(Folder { path, dir })?;
    Ok(())
}

// The path of what a folder has under a name.
fn path_below(alloc: Global, folder: &[u8], name: &[u8]) -> Result<Vec<u8>, AllocError>
    ensures { IfOk result (λ path. path.items ≡ below folder.now name.now) }
{
    let mut path = Vec::from_slice(alloc, folder)?;
    path.push(b'/')?;
    path.extend_from_slice(name)?;
    Ok(path)
}

fn ends_in_js(path: &[u8]) -> bool
    ensures { result ≡ ends_in_js path.now }
{
    path.ends_with(b".js".as_slice())
}

fn has_slash(name: &[u8]) -> bool
    ensures { result ≡ has_slash name.now }
{
    name.contains(&b'/')
}

// Whether no module is looked for in folders of this name.
fn is_passed(name: &[u8]) -> bool
    ensures { result ≡ is_passed name.now }
{
    begins_with_dot(name) || name == b"node_modules".as_slice()
}

fn begins_with_dot(name: &[u8]) -> bool
    ensures { result ≡ begins_with_dot name.now }
{
    matches!(name, [b'.', ..])
}
