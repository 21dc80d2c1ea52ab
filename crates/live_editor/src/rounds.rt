// The folder is looked at again and again, and in between news are told and keys heard.
ghost use Rattle.live_editor.specs.Editors.{GoesOn};

use crate::editor::wait_for_results;
use crate::known::Known;
use crate::live_editor::LiveEditor;
use crate::pace::{Pace, STEP_MILLIS};
use live_context::{Context, Key, LiveEnd, Terminal};
use live_folder::Watched;
use live_lines::News;
use live_site::Site;
use std::io;
use std::sync::Wait;
use std::thread::Parker;
use std::time::{Clock, Duration, Instant};

/// How many news are told at once.
const MOST_NEWS: usize = 65_536;

/// Opens the doors once the modules of the folder are served, and then looks at the folder again and again:
/// 50 milliseconds after a look, and later where looks that brought no edit took longer. In between it tells
/// news and hears keys. It gives why the server ends: a key said so, the hub's transcript is full, or memory
/// ran out for what an edit needs. It waits.
pub fn run_rounds<R: Wait + Clock, W: Watched, S: Site + Drop, T: Terminal>(
    context: &Context<R, S>,
    editor: &mut LiveEditor,
    watched: &mut W,
    terminal: &mut T,
) -> LiveEnd
    ensures goes { GoesOn editor.old editor.new }
{
    let mut known = Known::new(context.alloc);
    if let Some(end) = look_once(context, editor, &mut known, watched) {
        return end;
    }
    open_doors(context, &known, terminal);
    let mut pace = Pace::new();
    for _ in context.rt.forever() {
        let ended = run_round(context, editor, &mut known, &mut pace, watched, terminal);
        if let Some(end) = ended {
            return end;
        }
    }
    unreachable!()
}

// Opens the doors, once the workers have told what came of the first look.
fn open_doors<R: Wait, S: Site + Drop, T: Terminal>(
    context: &Context<R, S>,
    known: &Known,
    terminal: &mut T,
) {
    wait_for_results(context, known.jobs());
    settle(context, known);
    context.shared.bell.open();
    terminal.ready(context.alloc, known.modules());
}

// Tells the site that all edits have their results, where it is so.
fn settle<R: Wait, S: Site + Drop>(context: &Context<R, S>, known: &Known) {
    if context.shared.bell.results() >= known.jobs() {
        context.shared.site.settle(&context.rt, known.counted());
    }
}

// Looks at the folder, and rests. Some: the server ends.
fn run_round<R: Wait + Clock, W: Watched, S: Site + Drop, T: Terminal>(
    context: &Context<R, S>,
    editor: &mut LiveEditor,
    known: &mut Known,
    pace: &mut Pace,
    watched: &mut W,
    terminal: &mut T,
) -> Option<LiveEnd>
    ensures goes { GoesOn editor.old editor.new }
{
    let start = Instant::now(&context.rt);
    let before = known.counted();
    let ended = look_once(context, editor, known, watched);
    if ended.is_some() {
        return ended;
    }
    // A look that brings edits waits until the files are still, and that isn't time that it takes.
    let millis = if known.counted() == before {
        millis_since(&context.rt, start)
    } else {
        0
    };
    let steps = pace.steps_after(millis);
    rest(context, known, terminal, steps)
}

// Looks at the folder, and makes the edits that it brings. Where memory runs out the next look shows the
// same.
fn look_once<R: Wait, W: Watched, S: Site + Drop>(
    context: &Context<R, S>,
    editor: &mut LiveEditor,
    known: &mut Known,
    watched: &mut W,
) -> Option<LiveEnd>
    ensures goes { GoesOn editor.old editor.new }
{
    let Ok(look) = watched.look(context.alloc) else {
        return None;
    };
    editor.take(context, known, look)
}

// How many milliseconds went by since then, 10 seconds at most; none where the clock can't tell.
fn millis_since(clock: &impl Clock, start: io::Result<Instant>) -> u64 {
    let Ok(start) = start else {
        return 0;
    };
    let Ok(taken) = start.elapsed(clock) else {
        return 0;
    };
    taken.as_secs().min(10) * 1000 + u64::from(taken.subsec_millis())
}

// Rests, tells news and hears keys. Some: the server ends.
fn rest<R: Wait, S: Site + Drop, T: Terminal>(
    context: &Context<R, S>,
    known: &Known,
    terminal: &mut T,
    steps: u64,
) -> Option<LiveEnd> {
    let parker = Parker::new();
    for _ in 0..steps {
        settle(context, known);
        tell_all(context, terminal);
        if context.shared.bell.is_full() {
            return Some(LiveEnd::Full);
        }
        match terminal.key(context.alloc) {
            Some(Key::Quit) => return Some(LiveEnd::Quit),
            Some(Key::Reload) => return Some(LiveEnd::Reload),
            None => {}
        }
        parker.park_timeout(&context.rt, Duration::from_millis(STEP_MILLIS));
    }
    None
}

/// Tells the terminal the news that came, 65,536 at most: a fault with the line of the file, where the site
/// has it. It waits for the list of news.
pub fn tell_all<R: Wait, S: Site + Drop, T: Terminal>(context: &Context<R, S>, terminal: &mut T) {
    for _ in 0..MOST_NEWS {
        let Some(news) = context.shared.news.take(&context.rt) else {
            return;
        };
        terminal.tell(context.alloc, shown(context, news));
    }
}

// News as people are shown them: a fault with the line of the file, where the site has it.
fn shown<R: Wait, S: Site + Drop>(context: &Context<R, S>, news: News) -> News {
    let News::Fault {
        name,
        fault,
        line_text,
    } = news
    else {
        return news;
    };
    let line_text = match context
        .shared
        .site
        .line(&context.rt, context.alloc, &name, fault.line)
    {
        Ok(Some(line)) => line,
        _ => line_text,
    };
    News::Fault {
        name,
        fault,
        line_text,
    }
}
