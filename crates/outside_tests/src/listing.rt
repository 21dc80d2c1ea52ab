// What a folder shows.
ghost use Rattle.std.specs.Prelude.{◌≡◌};
ghost use Rattle.folders.specs.Files.{MayOpen};

use folders::{Entry, Node, OutFault, Reading, Tree};
use std::alloc::{AllocError, Global};

/// The most folders that are looked into.
const FOLDERS: u8 = 9;

// What was found so far.
#[derive(Drop)]
struct Found<D: Drop> {
    // Folders that are still to be looked into, each with its path.
    dirs: Vec<(String, D)>,
    // A line for each file.
    lines: Vec<String>,
}

/// Opens a folder, and answers a line for each file in it and below it, in order: its path and its text, or
/// that it has more bytes than the limit. No more than nine folders are looked into.
pub fn show<T: Tree>(
    alloc: Global,
    tree: &mut T,
    folder: &str,
    limit: usize,
) -> Result<Vec<String>, OutFault>
    requires may { MayOpen (T.asked tree.old) folder.now }
    ensures may { MayOpen (T.asked tree.new) folder.now }
{
    let root = tree.open(alloc, folder)?;
    let mut lines = lines_of(alloc, tree, root, limit)?;
    lines.sort_unstable();
    Ok(lines)
}

fn lines_of<T: Tree>(
    alloc: Global,
    tree: &mut T,
    root: T::Dir,
    limit: usize,
) -> Result<Vec<String>, OutFault>
    ensures asked { T.asked tree.new ≡ T.asked tree.old }
{
    let mut found = Found {
        dirs: Vec::new(alloc),
        lines: Vec::new(alloc),
    };
    put(&mut found.dirs, (String::new(alloc), root))?;
    for _ in 0..FOLDERS {
        let Some((path, dir)) = found.dirs.pop() else {
            break;
        };
        for entry in tree.list(alloc, &dir)? {
            let Entry { name, node } = entry;
            let path = format!(in alloc; "{path}/{name}")?;
            enter(alloc, tree, limit, &mut found, path, node)?;
        }
    }
    Ok(found.lines)
}

fn enter<T: Tree>(
    alloc: Global,
    tree: &mut T,
    limit: usize,
    found: &mut Found<T::Dir>,
    path: String,
    node: Node<T::Dir, T::File>,
) -> Result<(), OutFault>
    ensures asked { T.asked tree.new ≡ T.asked tree.old }
{
    match node {
        Node::Dir(dir) => Ok(put(&mut found.dirs, (path, dir))?),
        Node::File(file) => {
            let line = line_of(alloc, tree, &path, &file, limit)?;
            Ok(put(&mut found.lines, line)?)
        }
    }
}

fn put<X: Drop>(list: &mut Vec<X>, item: X) -> Result<(), AllocError> {
    list.push(item)?;
    Ok(())
}

fn line_of<T: Tree>(
    alloc: Global,
    tree: &mut T,
    path: &str,
    file: &T::File,
    limit: usize,
) -> Result<String, OutFault>
    ensures asked { T.asked tree.new ≡ T.asked tree.old }
{
    match tree.read(alloc, file, limit)? {
        Reading::Text(bytes) => {
            let text = str::from_utf8(&bytes).unwrap_or("?");
            Ok(format!(in alloc; "{path}: {text}")?)
        }
        Reading::TooLong => Ok(format!(in alloc; "{path} has more")?),
        Reading::Gone => Ok(format!(in alloc; "{path} is gone")?),
    }
}

/// The file of a name in a folder, if there is one.
pub fn file_named<T: Tree>(
    alloc: Global,
    tree: &mut T,
    dir: &T::Dir,
    name: &str,
) -> Result<Option<T::File>, OutFault>
    ensures asked { T.asked tree.new ≡ T.asked tree.old }
{
    for entry in tree.list(alloc, dir)? {
        let Entry { name: found, node } = entry;
        if found.as_str() == name {
            return Ok(file_of(node));
        }
    }
    Ok(None)
}

fn file_of<D: Drop, F: Drop>(node: Node<D, F>) -> Option<F> {
    match node {
        Node::Dir(_dir) => None,
        Node::File(file) => Some(file),
    }
}

/// Whether reading a file is a fault.
pub fn fails<T: Tree>(alloc: Global, tree: &mut T, file: &T::File) -> bool
    ensures asked { T.asked tree.new ≡ T.asked tree.old }
{
    matches!(tree.read(alloc, file, 9), Err(OutFault::Failed))
}

/// Whether a file is gone since it was listed.
pub fn is_gone<T: Tree>(alloc: Global, tree: &mut T, file: &T::File) -> bool
    ensures asked { T.asked tree.new ≡ T.asked tree.old }
{
    matches!(tree.read(alloc, file, 9), Ok(Reading::Gone))
}
