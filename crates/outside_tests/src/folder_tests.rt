// What a folder in memory and one of the file system show, before and after a change.
use crate::{fails, file_named, is_gone, show};
use folders::{FolderTree, MemFile, MemTree, Tree};
use std::alloc::{AllocError, Global};
use std::collections::VecDeque;
use std::test::Fail;
use std::{fs, thread};

pub(crate) fn files(alloc: Global, rows: &[(&str, &str)]) -> Result<Vec<MemFile>, AllocError> {
    let mut files = Vec::new(alloc);
    for (path, text) in rows {
        files.push(MemFile {
            path: String::from_str(alloc, path)?,
            text: Vec::from_slice(alloc, text.as_bytes())?,
        })?;
    }
    Ok(files)
}

pub(crate) fn are(lines: &[String], rows: &[&str]) -> bool {
    lines.len() == rows.len()
        && lines
            .iter()
            .zip(rows)
            .all(|(line, row)| line.as_str() == *row)
}

#[test]
fn a_folder_in_memory_shows_each_state(rt: HostRuntime) -> Result<(), Fail> {
    let alloc = rt.alloc();
    let first = [
        ("/main.js", "one"),
        ("/lib/util.js", "two"),
        ("/lib/a/b", ""),
    ];
    let mut folders = VecDeque::new(alloc);
    folders.push_back(files(alloc, &first)?)?;
    folders.push_back(files(alloc, &[("/main.js", "changed")])?)?;
    let mut tree = MemTree::new(folders, Vec::new(alloc));
    let lines = show(alloc, &mut tree, "site", 3)?;
    assert!(rt;
        are(
            &lines,
            &["/lib/a/b: ", "/lib/util.js: two", "/main.js: one"]
        )
    );
    let lines = show(alloc, &mut tree, "site", 3)?;
    assert!(rt; are(&lines, &["/main.js has more"]));
    let lines = show(alloc, &mut tree, "site", 7)?;
    assert!(rt; are(&lines, &["/main.js: changed"]));
    Ok(())
}

#[test]
fn a_file_of_an_earlier_state_is_a_fault(rt: HostRuntime) -> Result<(), Fail> {
    let alloc = rt.alloc();
    let mut folders = VecDeque::new(alloc);
    folders.push_back(files(alloc, &[("/main.js", "one")])?)?;
    folders.push_back(Vec::new(alloc))?;
    let mut tree = MemTree::new(folders, Vec::new(alloc));
    let root = tree.open(alloc, "site")?;
    let Some(file) = file_named(alloc, &mut tree, &root, "main.js")? else {
        panic!(rt; "main.js isn't listed")
    };
    assert!(rt; !fails(alloc, &mut tree, &file));
    assert!(rt; show(alloc, &mut tree, "site", 3)?.is_empty());
    assert!(rt; fails(alloc, &mut tree, &file));
    Ok(())
}

#[test]
fn a_folder_of_the_file_system_waits_for_each_change(rt: HostRuntime) -> Result<(), Fail> {
    let alloc = rt.alloc();
    fs::create_dir_all(&rt, "site/lib")?;
    fs::write(&rt, "site/main.js", "one")?;
    fs::write(&rt, "site/lib/util.js", "two")?;
    let mut tree = FolderTree::new(rt);
    let root = tree.open(alloc, "site")?;
    let Some(file) = file_named(alloc, &mut tree, &root, "main.js")? else {
        panic!(rt; "main.js isn't listed")
    };
    assert!(rt; !is_gone(alloc, &mut tree, &file));
    fs::remove_file(&rt, "site/main.js")?;
    assert!(rt; is_gone(alloc, &mut tree, &file));
    fs::write(&rt, "site/main.js", "changed")?;
    let lines = show(alloc, &mut tree, "site", 3)?;
    assert!(rt; are(&lines, &["/lib/util.js: two", "/main.js has more"]));
    let (lines, removed) = thread::join(
        &rt,
        || show(alloc, &mut tree, "site", 7),
        || fs::remove_file(&rt, "site/lib/util.js").is_ok(),
    );
    assert!(rt; removed && are(&lines?, &["/main.js: changed"]));
    fs::remove_dir_all(&rt, "site")?;
    Ok(())
}
