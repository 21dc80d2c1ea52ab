// What no clause says: that the calls succeed with ample memory, over pieces of every size, and that
// a fault in mid-stream is told in place of the bytes.
use hmr_base::{
    CleanSink, CleanSource, MemSink, MemSource, ReadFault, StdSink, StdSource, WriteFault,
    read_all, write_all,
};
use std::test::Fail;

#[test]
fn a_text_is_read_and_written_in_any_pieces(rt: HostRuntime) -> Result<(), Fail> {
    let alloc = rt.alloc();
    for (from, to) in [(1, 1), (1, 4), (2, 3), (9, 1), (0, 0)] {
        let bytes = Vec::from_slice(alloc, b"abcdef")?;
        let mut source = MemSource::new(bytes, from, Vec::new(alloc));
        let text = read_all(alloc, &mut source, 6)?;
        let mut sink = MemSink::new(alloc, 6, to, Vec::new(alloc))?;
        assert!(rt; write_all(&mut sink, &text).is_ok());
        assert_eq!(rt; sink.bytes(), b"abcdef".as_slice());
    }
    let mut clean = CleanSource::new(Vec::from_slice(alloc, b"abc")?);
    let text = read_all(alloc, &mut clean, 3)?;
    assert_eq!(rt; text.as_slice(), b"abc".as_slice());
    let mut counted = CleanSink::new();
    assert!(rt; write_all(&mut counted, &text).is_ok());
    assert_eq!(rt; counted.count, 3);
    Ok(())
}

#[test]
fn faults_and_limits_are_told(rt: HostRuntime) -> Result<(), Fail> {
    let alloc = rt.alloc();
    for call in 0..4u64 {
        let mut failing = Vec::new(alloc);
        failing.push(call)?;
        let mut source = MemSource::new(Vec::from_slice(alloc, b"abcdef")?, 2, failing);
        assert!(rt;
            read_all(alloc, &mut source, 100) == Err(ReadFault::Failed),
            "read {call}"
        );
    }
    let mut long = MemSource::new(Vec::from_slice(alloc, b"abcdef")?, 9, Vec::new(alloc));
    assert!(rt; read_all(alloc, &mut long, 5) == Err(ReadFault::TooLong));
    let mut failing = Vec::new(alloc);
    failing.push(1)?;
    let mut sink = MemSink::new(alloc, 6, 4, failing)?;
    assert!(rt; write_all(&mut sink, b"abcdef") == Err(WriteFault { written: 4 }));
    assert_eq!(rt; sink.bytes(), b"abcd".as_slice());
    let mut full = MemSink::new(alloc, 3, 2, Vec::new(alloc))?;
    assert!(rt; write_all(&mut full, b"abcdef") == Err(WriteFault { written: 2 }));
    Ok(())
}

#[test]
fn a_file_is_read_and_written_through_the_adapters(rt: HostRuntime) -> Result<(), Fail> {
    let alloc = rt.alloc();
    let mut sink = StdSink::new(Vec::new(alloc));
    assert!(rt; write_all(&mut sink, b"abc").is_ok());
    let mut source = StdSource::new(b"abc".as_slice());
    let text = read_all(alloc, &mut source, 9)?;
    assert_eq!(rt; text.as_slice(), b"abc".as_slice());
    Ok(())
}
