// The limits of edits, and what no clause says: that edits are taken with ample memory.
use hmr_types::{EditRefusal, ModName};
use std::alloc::{AllocError, Global};
use std::test::Fail;
use version_map::{EditFault, EditOutcome, VersionMap};

/// What an edit brought, in a word.
fn told(brought: Result<EditOutcome, EditFault>) -> &'static str {
    match brought {
        Ok(EditOutcome::Job(_)) => "job",
        Ok(EditOutcome::Same) => "same",
        Ok(EditOutcome::Removed(_)) => "removed",
        Err(EditFault::Refused(EditRefusal::TextTooLong)) => "text-too-long",
        Err(EditFault::Refused(EditRefusal::TooManyNames)) => "too-many-names",
        Err(EditFault::Refused(EditRefusal::SourceTotal)) => "source-total",
        Err(EditFault::Refused(EditRefusal::NumbersSpent)) => "numbers-spent",
        Err(EditFault::NoMemory) => "no-memory",
    }
}

/// The name `/N.js`.
fn numbered(alloc: Global, number: u32) -> Result<ModName, AllocError> {
    let text = format!(in alloc; "/{number}.js")?;
    match ModName::read(alloc, text.as_bytes()) {
        Ok(name) => Ok(name),
        Err(_) => Err(AllocError),
    }
}

/// What an edit to so many spaces brings.
fn edited(
    alloc: Global,
    map: &mut VersionMap,
    number: u32,
    length: usize,
) -> Result<&'static str, AllocError> {
    let name = numbered(alloc, number)?;
    let text = vec![in alloc; b' '; length]?;
    Ok(told(map.edit(name, Some(text))))
}

/// How many of the edits of these names bring jobs.
fn jobs(
    alloc: Global,
    map: &mut VersionMap,
    first: u32,
    end: u32,
    length: usize,
) -> Result<u32, AllocError> {
    let mut jobs: u32 = 0;
    for number in first..end {
        if edited(alloc, map, number, length)? == "job" {
            jobs = jobs.wrapping_add(1);
        }
    }
    Ok(jobs)
}

#[test]
fn edits_have_limits(rt: HostRuntime) -> Result<(), Fail> {
    let alloc = rt.alloc();
    let mut map = VersionMap::new(alloc);
    assert_eq!(rt; edited(alloc, &mut map, 0, 131_073)?, "text-too-long");
    assert_eq!(rt; jobs(alloc, &mut map, 0, 256, 131_072)?, 256);
    assert_eq!(rt; edited(alloc, &mut map, 256, 1)?, "source-total");
    assert_eq!(rt; edited(alloc, &mut map, 0, 131_072)?, "same");
    assert_eq!(rt; edited(alloc, &mut map, 0, 131_073)?, "text-too-long");
    assert_eq!(rt; edited(alloc, &mut map, 0, 131_071)?, "job");
    assert_eq!(rt; edited(alloc, &mut map, 256, 1)?, "job");
    assert_eq!(rt; jobs(alloc, &mut map, 257, 8_192, 0)?, 7_935);
    assert_eq!(rt; edited(alloc, &mut map, 8_192, 0)?, "too-many-names");
    assert_eq!(rt; told(map.edit(numbered(alloc, 8_192)?, None)), "same");
    assert_eq!(rt; told(map.edit(numbered(alloc, 5)?, None)), "removed");
    assert_eq!(rt; edited(alloc, &mut map, 8_192, 0)?, "job");
    Ok(())
}
