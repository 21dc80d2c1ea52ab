// Words of the command line, and what the commands that they are hold. Words that are no command are test
// cases of `tests/words.py`.
use command_words::{Command, ServePlan, read_words};
use hmr_types::ModName;
use std::alloc::{AllocError, Global};
use std::test::Fail;

/// The command that words are, of which each two stand one space apart.
fn told(alloc: Global, line: &str) -> Result<String, AllocError> {
    let mut words = Vec::new(alloc);
    for word in line.split(' ') {
        words.push(String::from_str(alloc, word)?)?;
    }
    match read_words(alloc, words.as_slice()) {
        Ok(Command::Make { count, seed }) => format!(in alloc; "make {count} of {seed}"),
        Ok(Command::Serve(plan)) => told_plan(alloc, &plan),
        Ok(Command::Join { port, roots, turns }) => {
            let roots = joined(alloc, roots.as_slice())?;
            format!(in alloc; "join {port}{roots} turns {turns}")
        }
        _ => String::from_str(alloc, "another"),
    }
}

fn told_plan(alloc: Global, plan: &ServePlan) -> Result<String, AllocError> {
    let folder = plan.folder.as_str();
    let roots = joined(alloc, plan.roots.as_slice())?;
    let port = plan.port;
    let (clients, outside, turns) = (plan.clients, plan.outside, plan.turns);
    let (workers, rounds, edits) = (plan.workers, plan.rounds, plan.edits);
    format!(in alloc;
        "serve {folder}{roots} port {port} clients {clients} outside {outside} turns {turns} workers {workers} rounds {rounds} edits {edits}"
    )
}

/// Each name behind a space.
fn joined(alloc: Global, names: &[ModName]) -> Result<String, AllocError> {
    let mut text = String::new(alloc);
    for name in names {
        text.push_str(" ")?;
        text.push_str(name.as_str())?;
    }
    Ok(text)
}

/// Words, and what their command holds.
const ROWS: [(&str, &str); 11] = [
    ("make 4096 2147483647", "make 4096 of 2147483647"),
    ("make +5 007", "make 5 of 7"),
    (
        "serve . /m.js",
        "serve . /m.js port 0 clients 0 outside 0 turns 1000 workers 2 rounds 0 edits false",
    ),
    (
        "serve some/where /m.js /n.js --edits",
        "serve some/where /m.js /n.js port 0 clients 0 outside 0 turns 1000 workers 2 rounds 0 edits true",
    ),
    (
        "serve --edits -- . /m.js",
        "serve . /m.js port 0 clients 0 outside 0 turns 1000 workers 2 rounds 0 edits true",
    ),
    (
        "serve . /m.js --port 65535 --clients 32 --outside 32 --turns 400000 --workers 16 --rounds 1000",
        "serve . /m.js port 65535 clients 32 outside 32 turns 400000 workers 16 rounds 1000 edits false",
    ),
    (
        "serve --port=0 . --clients 0 /m.js --outside 0 --turns 0 --workers 1 --rounds 0 /n.js",
        "serve . /m.js /n.js port 0 clients 0 outside 0 turns 0 workers 1 rounds 0 edits false",
    ),
    (
        "serve . /a /b /c /d /e /f /g /h /i /j /k /l /m /n /o /p",
        "serve . /a /b /c /d /e /f /g /h /i /j /k /l /m /n /o /p port 0 clients 0 outside 0 turns 1000 workers 2 rounds 0 edits false",
    ),
    ("join 80", "join 80 turns 1000"),
    ("join 1 --turns 0", "join 1 turns 0"),
    (
        "join --turns 400000 65535 /m.js /n.js",
        "join 65535 /m.js /n.js turns 400000",
    ),
];

#[test]
fn words_are_commands_as_the_rows_say(rt: HostRuntime) -> Result<(), Fail> {
    let alloc = rt.alloc();
    for (line, want) in ROWS {
        assert_eq!(rt; told(alloc, line)?.as_str(), want);
    }
    Ok(())
}
