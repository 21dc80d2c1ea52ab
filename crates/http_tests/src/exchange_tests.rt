// Exchanges over memory that gives and takes a few bytes at a time, or fails.
ghost use Rattle.std.specs.Prelude.{◌≡◌, Some, None};

use hmr_base::{MemSink, MemSource};
use http_exchange::{HttpEnd, Site, serve};
use std::alloc::{AllocError, Global};

/// One text under every name but `/x.js`.
struct OneText;

impl Site for OneText {
    ghost use Rattle.http_tests.specs.Texts.{bodies};

    ghost bodies = { λ _. bodies };

    fn body(&self, alloc: Global, name: &[u8]) -> Result<Option<Vec<u8>>, AllocError> {
        if name == b"/x.js".as_slice() {
            return Ok(None);
        }
        let text = Vec::from_slice(alloc, b"n;\n")?;
        Ok(Some(text))
    }
}

const TWO: &[u8] =
    b"POST /m.js HTTP/1.1\r\nHost: x\r\n\r\nGET /x.js HTTP/1.0\r\n\r\nGET /m.js HTTP/1.1\r\n\r\n";

const ANSWERS: &[u8] =
    b"HTTP/1.1 405 Method Not Allowed\r\nAllow: GET, HEAD\r\nContent-Type: text/plain\r\nContent-Length: 23\r\nConnection: keep-alive\r\n\r\n405 Method Not Allowed\nHTTP/1.1 404 Not Found\r\nContent-Type: text/plain\r\nContent-Length: 14\r\nConnection: close\r\n\r\n404 Not Found\n";

#[test]
fn answers_follow_in_turn(rt: HostRuntime) -> Result<(), AllocError> {
    let alloc = rt.alloc();
    for piece in [1, 7, 4096] {
        let bytes = Vec::from_slice(alloc, TWO)?;
        let mut source = MemSource::new(bytes, piece, Vec::new(alloc));
        let mut sink = MemSink::new(alloc, 4096, piece, Vec::new(alloc))?;
        assert_eq!(rt;
            serve(alloc, &mut source, &mut sink, &OneText),
            HttpEnd::Closed
        );
        assert_eq!(rt; sink.bytes(), ANSWERS);
    }
    Ok(())
}

#[test]
fn faults_end_it(rt: HostRuntime) -> Result<(), AllocError> {
    let alloc = rt.alloc();
    let bytes = Vec::from_slice(alloc, TWO)?;
    let mut source = MemSource::new(bytes, 16, Vec::from_slice(alloc, &[3_u64])?);
    let mut sink = MemSink::new(alloc, 4096, 4096, Vec::new(alloc))?;
    assert_eq!(rt;
        serve(alloc, &mut source, &mut sink, &OneText),
        HttpEnd::ReadFault
    );
    assert_eq!(rt;
        sink.bytes(),
        &ANSWERS[..sink.bytes().len().min(ANSWERS.len())]
    );
    let bytes = Vec::from_slice(alloc, TWO)?;
    let mut source = MemSource::new(bytes, 4096, Vec::new(alloc));
    let mut sink = MemSink::new(alloc, 4096, 40, Vec::from_slice(alloc, &[2_u64])?)?;
    assert_eq!(rt;
        serve(alloc, &mut source, &mut sink, &OneText),
        HttpEnd::WriteFault
    );
    assert_eq!(rt; sink.bytes(), &ANSWERS[..80]);
    Ok(())
}
