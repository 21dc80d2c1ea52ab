// The modules of a version map, served over HTTP while their sources change.
use hmr_types::ModName;
use hmr_types::limits::TEXT_BYTES;
use http_modules::answer_to;
use import_scan::transform;
use std::alloc::{AllocError, Global};
use std::test::Fail;
use version_map::{EditOutcome, VersionMap};

fn named(alloc: Global, text: &str) -> Result<ModName, AllocError> {
    match ModName::read(alloc, text.as_bytes()) {
        Ok(name) => Ok(name),
        Err(_) => Err(AllocError),
    }
}

/// Gives a module a text, and settles it.
fn give(alloc: Global, map: &mut VersionMap, name: &str, text: &[u8]) -> Result<(), AllocError> {
    if text.len() > TEXT_BYTES {
        return Err(AllocError);
    }
    let source = Vec::from_slice(alloc, text)?;
    if let Ok(EditOutcome::Job(ver)) = map.edit(named(alloc, name)?, Some(source)) {
        let source = Vec::from_slice(alloc, text)?;
        map.settle(transform(alloc, named(alloc, name)?, source)?, ver);
    }
    Ok(())
}

/// The body of the answer to a request for this target.
fn body(alloc: Global, map: &VersionMap, target: &[u8]) -> Result<Vec<u8>, AllocError> {
    let mut head = Vec::from_slice(alloc, b"GET ")?;
    head.extend_from_slice(target)?;
    head.extend_from_slice(b" HTTP/1.1\r\n\r\n")?;
    let reply = answer_to(alloc, &head, map)?;
    Ok(reply.body)
}

#[test]
fn bodies_follow_what_is_served(rt: HostRuntime) -> Result<(), Fail> {
    let alloc = rt.alloc();
    let mut map = VersionMap::new(alloc);
    give(alloc, &mut map, "/a.js", b"export const n = 1")?;
    give(
        alloc,
        &mut map,
        "/m.js",
        b"import { n as k } from './a.js'; import './b.js'; import.meta.hot.accept(['./a.js'])",
    )?;
    assert_eq!(rt;
        body(alloc, &map, b"/m.js?v=2")?.as_slice(),
        b"import { n as k } from \"/a.js?v=1\";\nimport \"/b.js\";\nimport.meta.hot.accept([\"./a.js\"]);\n".as_slice()
    );
    give(alloc, &mut map, "/a.js", b"export const n =")?;
    assert_eq!(rt;
        body(alloc, &map, b"/a.js")?.as_slice(),
        b"export const n = 1;\n".as_slice()
    );
    assert_eq!(rt;
        body(alloc, &map, b"/m.js")?.as_slice(),
        b"import { n as k } from \"/a.js?v=1\";\nimport \"/b.js\";\nimport.meta.hot.accept([\"./a.js\"]);\n".as_slice()
    );
    give(alloc, &mut map, "/a.js", b"export const n = 2")?;
    give(alloc, &mut map, "/b.js", b"")?;
    assert_eq!(rt; body(alloc, &map, b"/b.js")?.len(), 0);
    assert_eq!(rt;
        body(alloc, &map, b"/m.js")?.as_slice(),
        b"import { n as k } from \"/a.js?v=4\";\nimport \"/b.js?v=5\";\nimport.meta.hot.accept([\"./a.js\"]);\n".as_slice()
    );
    assert_eq!(rt;
        body(alloc, &map, b"/c.js")?.as_slice(),
        b"404 Not Found\n".as_slice()
    );
    Ok(())
}
