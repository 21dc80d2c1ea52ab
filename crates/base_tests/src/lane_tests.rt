// Runs over the ends of blocks at each place, and each byte in each class.
use byte_lanes::{Class, classes, count_newlines, first_not, first_of, line_starts};
use std::test::Fail;

const CLASSES: [Class; 6] = [
    Class::Word,
    Class::Space,
    Class::Newline,
    Class::Quote,
    Class::Star,
    Class::StringStop,
];

/// What the words of the classes say of one byte.
fn belongs(class: Class, byte: u8) -> bool {
    match class {
        Class::Word => byte.is_ascii_alphanumeric() || byte == b'_' || byte == b'$',
        Class::Space => byte == 32 || byte == 9 || byte == 13 || byte == 10,
        Class::Newline => byte == 10,
        Class::Quote => byte == 39 || byte == 34 || byte == 92,
        Class::Star => byte == 42,
        Class::StringStop => belongs_to_stop(byte),
    }
}

fn belongs_to_stop(byte: u8) -> bool {
    byte == 39 || byte == 34 || byte == 92 || byte == 13 || byte == 10
}

/// Spaces, with a run of LFs or of letters from a place on.
fn with_run(byte: u8, lead: usize, len: usize) -> [u8; 256] {
    let mut text = [b' '; 256];
    for place in text.iter_mut().skip(lead).take(len) {
        *place = byte;
    }
    text
}

#[test]
fn runs_end_where_they_end(rt: HostRuntime) -> Result<(), Fail> {
    for len in [1, 63, 64, 65, 128] {
        for lead in 0..64 {
            let text = with_run(b'x', lead, len);
            assert_eq!(rt; first_of(&text, Class::Word), Some(lead));
            assert_eq!(rt; first_not(&text[lead..], Class::Word), Some(len));
            assert_eq!(rt; count_newlines(&text), 0);
            let lines = with_run(b'\n', lead, len);
            assert_eq!(rt; first_of(&lines, Class::Newline), Some(lead));
            assert_eq!(rt; first_not(&lines[lead..], Class::Newline), Some(len));
            assert_eq!(rt; count_newlines(&lines), len);
        }
    }
    Ok(())
}

#[test]
fn each_byte_is_in_its_classes(rt: HostRuntime) -> Result<(), Fail> {
    for byte in 0..=255u8 {
        let block = [byte; 64];
        for class in CLASSES {
            let found = if belongs(class, byte) { Some(0) } else { None };
            let other = if belongs(class, byte) { None } else { Some(0) };
            assert_eq!(rt; first_of(&block, class), found);
            assert_eq!(rt; first_of(&block[..1], class), found);
            assert_eq!(rt; first_not(&block, class), other);
            assert_eq!(rt; first_not(&block[..1], class), other);
        }
        let masks = classes(&block);
        assert_eq!(rt; masks.word == u64::MAX, belongs(Class::Word, byte));
        assert_eq!(rt; masks.space == u64::MAX, belongs(Class::Space, byte));
        assert_eq!(rt; masks.newline == u64::MAX, belongs(Class::Newline, byte));
        assert_eq!(rt; masks.quote == u64::MAX, belongs(Class::Quote, byte));
    }
    Ok(())
}

#[test]
fn bits_stand_at_their_bytes(rt: HostRuntime) -> Result<(), Fail> {
    let mut block = [b'.'; 64];
    block[3] = b'x';
    block[5] = b'\n';
    block[63] = b'"';
    let masks = classes(&block);
    assert_eq!(rt; masks.word, 1 << 3);
    assert_eq!(rt; masks.space, 1 << 5);
    assert_eq!(rt; masks.newline, 1 << 5);
    assert_eq!(rt; masks.quote, 1 << 63);
    Ok(())
}

#[test]
fn short_and_plain_texts(rt: HostRuntime) -> Result<(), Fail> {
    assert_eq!(rt; first_of(b"   x", Class::Word), Some(3));
    assert_eq!(rt; first_not(&[b'a'; 130], Class::Word), None);
    assert_eq!(rt; first_of(b"", Class::Star), None);
    assert_eq!(rt; count_newlines(b""), 0);
    Ok(())
}

/// Where the lines begin, where there is room for them.
fn starts_of(text: &[u8], into: &mut [u32]) -> usize {
    if count_newlines(text) < into.len() && text.len() < 1000 {
        line_starts(text, into)
    } else {
        0
    }
}

#[test]
fn lines_begin_after_each_newline(rt: HostRuntime) -> Result<(), Fail> {
    let mut starts = [7; 4];
    assert_eq!(rt; starts_of(b"a\nb\n", &mut starts), 3);
    assert_eq!(rt; starts, [0, 2, 4, 7]);
    assert_eq!(rt; starts_of(b"", &mut starts), 1);
    assert_eq!(rt; starts, [0, 2, 4, 7]);
    let mut many = [7; 131];
    assert_eq!(rt; starts_of(&[b'\n'; 130], &mut many), 131);
    assert_eq!(rt; many[0], 0);
    assert_eq!(rt; many[64], 64);
    assert_eq!(rt; many[130], 130);
    Ok(())
}
