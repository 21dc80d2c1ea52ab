// Lines that no run of a script shows: the largest numbers, and words for what takes too long to come to.
// The other lines are those of `examples/` and of the test cases of `tests/`.
use hmr_types::limits::LARGEST_NUMBER;
use hmr_types::{EditRefusal, FaultWord, ModName, Sequence, TextFault};
use output_lines::{EditWord, EndWord, OutLine, RemoveWord, SettleWord};
use play_text::render;
use std::alloc::{AllocError, Global};
use std::test::Fail;

fn name(alloc: Global, text: &str) -> Result<ModName, AllocError> {
    match ModName::read(alloc, text.as_bytes()) {
        Ok(name) => Ok(name),
        Err(_) => Err(AllocError),
    }
}

/// Each line without its LF.
const LINES: &str = "\
open 4294967295
1 ended instances
edit /m.js job 9007199254740991
edit /m.js refused source-total
remove /m.js refused numbers-spent
settle /m.js 2 refused 4294967295:14 unexpected
1 error /m.js 9007199254740992:18446744073709551615 not-utf8
";

/// The line of a case.
fn line(row: usize, name: ModName) -> OutLine {
    match row {
        0 => OutLine::Open {
            client: 4_294_967_295,
        },
        1 => OutLine::Ended {
            client: 1,
            word: EndWord::Instances,
        },
        2 => OutLine::Edit {
            name,
            outcome: EditWord::Job(LARGEST_NUMBER),
        },
        3 => OutLine::Edit {
            name,
            outcome: EditWord::Refused(EditRefusal::SourceTotal),
        },
        4 => OutLine::Remove {
            name,
            outcome: RemoveWord::NumbersSpent,
        },
        5 => OutLine::Settle {
            name,
            version: 2,
            outcome: SettleWord::Refused(TextFault {
                line: 4_294_967_295,
                col: 14,
                word: FaultWord::Unexpected,
            }),
        },
        _ => OutLine::Error {
            client: 1,
            name,
            line: LARGEST_NUMBER + 1,
            column: u64::MAX,
            word: FaultWord::NotUtf8,
        },
    }
}

// A line is made and rendered in a function of its own, so that none holds more than one.

/// The text of a case's line.
fn text_of(alloc: Global, row: usize) -> Result<Vec<u8>, AllocError> {
    let name = name(alloc, "/m.js")?;
    render(alloc, &line(row, name))
}

/// Whether these bytes are the line as it is written here, with LF behind it.
fn is_line(bytes: &[u8], want: &str) -> bool {
    match bytes {
        [line @ .., b'\n'] => line == want.as_bytes(),
        _ => false,
    }
}

/// The line of a batch of two modules, under the largest number.
fn batch(alloc: Global) -> Result<Vec<u8>, AllocError> {
    let mut names = Vec::new(alloc);
    names.push(name(alloc, "/a.js")?)?;
    names.push(name(alloc, "/m.js")?)?;
    let line = OutLine::Batch {
        client: 1,
        batch: u64::MAX,
        triggered: Sequence::from_vec(names),
    };
    render(alloc, &line)
}

#[test]
fn lines_are_rendered_as_the_rows_say(rt: HostRuntime) -> Result<(), Fail> {
    let alloc = rt.alloc();
    let mut rendered: u32 = 0;
    for (row, want) in LINES.lines().enumerate() {
        let text = text_of(alloc, row)?;
        assert!(rt; is_line(text.as_slice(), want), "{want}");
        rendered = rendered.wrapping_add(1);
    }
    assert_eq!(rt; rendered, 7);
    let text = batch(alloc)?;
    assert!(rt;
        is_line(
            text.as_slice(),
            "1 batch 18446744073709551615 by /a.js /m.js"
        )
    );
    Ok(())
}
