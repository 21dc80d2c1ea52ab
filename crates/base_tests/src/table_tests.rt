// Lists of names and versions that are tables, and lists that aren't.
use hmr_types::{ModName, Table};
use std::alloc::Global;
use std::test::Fail;

#[test]
fn tables_have_rising_names_and_counted_versions(rt: HostRuntime) -> Result<(), Fail> {
    let alloc = rt.alloc();
    for (first, second, version, is_table) in [
        ("/a", "/b", 1, true),
        ("/a", "/a/b", 9_007_199_254_740_991, true),
        ("/a", "/a", 1, false),
        ("/b", "/a", 1, false),
        ("/a", "/b", 0, false),
        ("/a", "/b", 9_007_199_254_740_992, false),
    ] {
        let first = ModName::read(alloc, first.as_bytes())?;
        let second = ModName::read(alloc, second.as_bytes())?;
        let pairs = vec![in alloc; (first, 4), (second, version)]?;
        assert!(rt; Table::of(pairs).is_some() == is_table);
    }
    assert!(rt; Table::of(Vec::new(alloc)).is_some());
    Ok(())
}
