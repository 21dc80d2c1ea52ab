// Tables that are packed and unpacked, and the bytes that they are packed as.
use super::PackedTable;
use hmr_types::{ModName, Table, Ver};
use std::alloc::{AllocError, Global};
use std::test::Fail;

// The largest version.
const LAST: Ver = 9_007_199_254_740_991;

#[test]
fn unpacking_gives_the_table_that_was_packed(rt: HostRuntime) -> Result<(), Fail> {
    let alloc = rt.alloc();
    let mut longest = vec![in alloc; b'z'; 255]?;
    longest[0] = b'/';
    let mut rows = Vec::new(alloc);
    assert!(rt; comes_back(alloc, &rows)?);
    rows.push((ModName::read(alloc, b"/a")?, 1))?;
    assert!(rt; comes_back(alloc, &rows)?);
    rows.push((ModName::read(alloc, b"/a/b.js")?, LAST))?;
    rows.push((ModName::read(alloc, &longest)?, 256))?;
    assert!(rt; comes_back(alloc, &rows)?);
    Ok(())
}

#[test]
fn a_row_is_its_version_the_length_of_its_name_and_the_name(rt: HostRuntime) -> Result<(), Fail> {
    let alloc = rt.alloc();
    let first = (ModName::read(alloc, b"/a")?, 258);
    let second = (ModName::read(alloc, b"/b/c")?, LAST);
    let packed = packed(alloc, vec![in alloc; first, second]?)?;
    let bytes: [u8; 24] = [
        2, 1, 0, 0, 0, 0, 0, 0, 2, b'/', b'a', 255, 255, 255, 255, 255, 255, 31, 0, 4, b'/', b'b',
        b'/', b'c',
    ];
    assert!(rt; packed.bytes.as_slice() == bytes.as_slice());
    Ok(())
}

#[test]
fn a_packed_table_has_no_room_to_spare(rt: HostRuntime) -> Result<(), Fail> {
    let alloc = rt.alloc();
    assert_eq!(rt; packed(alloc, Vec::new(alloc))?.bytes.capacity(), 0);
    let first = (ModName::read(alloc, b"/a")?, 1);
    let second = (ModName::read(alloc, b"/b/c")?, LAST);
    let packed = packed(alloc, vec![in alloc; first, second]?)?;
    assert_eq!(rt; packed.bytes.capacity(), 24);
    Ok(())
}

// The table of these rows, which are one, packed.
fn packed(alloc: Global, rows: Vec<(ModName, Ver)>) -> Result<PackedTable, AllocError> {
    match Table::of(rows) {
        Some(table) => PackedTable::pack(alloc, &table),
        None => Err(AllocError),
    }
}

// Whether these rows are unpacked as they were packed.
fn comes_back(alloc: Global, rows: &Vec<(ModName, Ver)>) -> Result<bool, AllocError> {
    let table = packed(alloc, rows.clone()?)?.unpack(alloc)?;
    Ok(table.as_slice() == rows.as_slice())
}
