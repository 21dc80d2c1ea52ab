// Transcripts of a client. Each row is played or told. Played is a row with a message of a server, as JSON;
// a row `lie KIND ..`, with wrong answers of these kinds; and a row with `?` at its front, which looks at
// the client or fires an event at it. What it tells stands behind it, and the request that stands is told
// before each message.
ghost use Rattle.std.specs.Prelude.{◌≡◌, ℕ, IfOk, codes};
ghost use Rattle.handler_table.specs.Held.{IsHost};
ghost use Rattle.update_msgs.specs.Writable.{IsFormat, IsWritable};
ghost use Rattle.runtime_state.specs.Standing.{KeepsWords};

use handler_table::Shelf;
use hmr_types::{ModName, Text, Value, Ver};
use hot_runtime::take;
use message_json::decode;
use output_lines::OutLine;
use play_text::render;
use retained_data::{Bag, Ran};
use runtime_events::fire;
use runtime_showing::{fates, stale, values};
use runtime_state::{HotRuntime, RuntimeFault};
use std::alloc::{AllocError, Global};
use update_msgs::{AbortCause, ClientMsg, ServerMsg};

fn text(alloc: Global, characters: &str) -> Result<Text, AllocError>
    ensures { IfOk result (λ t. t ≡ characters.now) }
{
    Ok(Text::from_string(String::from_str(alloc, characters)?))
}

fn named(alloc: Global, text: &str) -> Result<ModName, AllocError> {
    match ModName::read(alloc, text.as_bytes()) {
        Ok(name) => Ok(name),
        Err(_) => Err(AllocError),
    }
}

/// The message of a row, in a format.
fn message(alloc: Global, row: &str, format: u8) -> Result<ServerMsg, AllocError>
    requires format { IsFormat format }
    ensures writable { IfOk result (IsWritable format) }
{
    match decode(alloc, row.as_bytes(), format) {
        Ok(msg) => Ok(msg),
        Err(_) => Err(AllocError),
    }
}

fn put_row(out: &mut String, row: &str) -> Result<(), AllocError> {
    out.push_str(row)?;
    out.push_str("\n")
}

fn with_names(word: String, names: &[ModName]) -> Result<String, AllocError> {
    let mut out = word;
    for name in names {
        out.push_str(" ")?;
        out.push_str(name.as_str())?;
    }
    Ok(out)
}

/// A word, and each module as NAME:VERSION.
fn with_modules(
    alloc: Global,
    word: &str,
    modules: &[(ModName, Ver)],
) -> Result<String, AllocError> {
    let mut out = String::from_str(alloc, word)?;
    for (name, version) in modules {
        let module = format!(in alloc; " {name}:{version}")?;
        out.push_str(&module)?;
    }
    Ok(out)
}

fn cause_told(cause: AbortCause) -> &'static str {
    match cause {
        AbortCause::Missing => "missing",
        AbortCause::Broken => "broken",
        AbortCause::Link => "link",
    }
}

fn aborted_told(
    alloc: Global,
    cause: AbortCause,
    path: ModName,
    from: Option<ModName>,
    name: Option<Text>,
) -> Result<String, AllocError> {
    let word = cause_told(cause);
    match (from, name) {
        (Some(from), Some(name)) => {
            let name = name.as_str();
            format!(in alloc; "aborted {word} {path} {from} {name}")
        }
        _ => format!(in alloc; "aborted {word} {path}"),
    }
}

/// A request, in a few words.
fn request_told(alloc: Global, asked: ClientMsg) -> Result<String, AllocError> {
    match asked {
        ClientMsg::Hello { format, roots } => {
            with_names(format!(in alloc; "hello {format}")?, roots.as_slice())
        }
        ClientMsg::Ask => String::from_str(alloc, "ask"),
        ClientMsg::Fetch { path } => format!(in alloc; "fetch {path}"),
        ClientMsg::Applied { table } => with_modules(alloc, "applied", table.as_slice()),
        ClientMsg::Aborted {
            cause,
            path,
            from,
            name,
        } => aborted_told(alloc, cause, path, from, name),
        ClientMsg::Invalidate {
            path,
            version,
            message,
        } => {
            let message = message.as_str();
            format!(in alloc; "invalidate {path}:{version} {message}")
        }
        ClientMsg::Bye => String::from_str(alloc, "bye"),
    }
}

fn put_lines(alloc: Global, lines: &[OutLine], out: &mut String) -> Result<(), AllocError> {
    for line in lines {
        let bytes = render(alloc, line)?;
        let line = String::from_utf8_lossy(alloc, bytes.as_slice())?;
        out.push_str(&line)?;
    }
    Ok(())
}

/// Adds what a message did.
fn put_taken(
    alloc: Global,
    taken: Result<Vec<OutLine>, RuntimeFault>,
    out: &mut String,
) -> Result<(), AllocError> {
    match taken {
        Ok(lines) => put_lines(alloc, &lines, out),
        Err(RuntimeFault::Unexpected { wanted, got }) => {
            let row = format!(in alloc; "unexpected {wanted}:{got}")?;
            put_row(out, &row)
        }
        Err(RuntimeFault::InstancesFull) => put_row(out, "instances full"),
        Err(RuntimeFault::Stopped) => put_row(out, "stopped"),
        Err(RuntimeFault::NoMemory) => Err(AllocError),
    }
}

/// Adds what an event did.
fn put_heard(
    alloc: Global,
    heard: Result<Option<Vec<OutLine>>, RuntimeFault>,
    out: &mut String,
) -> Result<(), AllocError> {
    match heard {
        Ok(Some(lines)) => put_lines(alloc, &lines, out),
        Ok(None) => put_row(out, "not heard"),
        Err(RuntimeFault::Stopped) => put_row(out, "stopped"),
        Err(_) => Err(AllocError),
    }
}

fn put_stale<F>(
    alloc: Global,
    runtime: &HotRuntime<F>,
    out: &mut String,
) -> Result<(), AllocError> {
    for (importer, dependency) in &stale(runtime)? {
        let row = format!(in alloc; "stale {importer} {dependency}")?;
        put_row(out, &row)?;
    }
    Ok(())
}

fn put_rest<F>(alloc: Global, runtime: &HotRuntime<F>, out: &mut String) -> Result<(), AllocError> {
    let client = runtime.client();
    let rest = if runtime.at_rest() { "at rest" } else { "busy" };
    let row = format!(in alloc; "client {client} {rest}")?;
    put_row(out, &row)
}

/// Adds what the client shows of this kind.
fn put_shown<F>(
    alloc: Global,
    runtime: &HotRuntime<F>,
    kind: &str,
    out: &mut String,
) -> Result<(), AllocError> {
    match kind {
        "values" => put_lines(alloc, &values(runtime)?, out),
        "fates" => put_lines(alloc, &fates(runtime)?, out),
        "stale" => put_stale(alloc, runtime, out),
        "table" => {
            let table = runtime.table()?;
            put_row(out, &with_modules(alloc, "table", table.as_slice())?)
        }
        _ => put_rest(alloc, runtime, out),
    }
}

/// Fires an event, given as NAME TEXT.
fn play_event<F: FnOnce(Bag) -> Result<Ran, AllocError> + Drop>(
    alloc: Global,
    runtime: &mut HotRuntime<F>,
    event: &str,
    out: &mut String,
) -> Result<(), AllocError>
    requires callable { (f : F) → F.IsAlwaysCallable f }
    requires words { KeepsWords F.post runtime.old }
    ensures words { KeepsWords F.post runtime.new }
    ensures format { runtime.new.format ≡ runtime.old.format }
{
    let (name, value) = event.split_once(' ').unwrap_or((event, ""));
    let name = named(alloc, name)?;
    let value = Value::Str(text(alloc, value)?);
    put_heard(alloc, fire(runtime, &name, &value), out)
}

/// Looks at the client, or fires an event.
fn look<F: FnOnce(Bag) -> Result<Ran, AllocError> + Drop>(
    alloc: Global,
    runtime: &mut HotRuntime<F>,
    kind: &str,
    out: &mut String,
) -> Result<(), AllocError>
    requires callable { (f : F) → F.IsAlwaysCallable f }
    requires words { KeepsWords F.post runtime.old }
    ensures words { KeepsWords F.post runtime.new }
    ensures format { runtime.new.format ≡ runtime.old.format }
{
    match kind.split_once(' ') {
        Some((_, event)) => play_event(alloc, runtime, event, out),
        None => put_shown(alloc, runtime, kind, out),
    }
}

/// Takes a message, and adds what it did.
fn play_message<F: FnOnce(Bag) -> Result<Ran, AllocError> + Drop>(
    alloc: Global,
    runtime: &mut HotRuntime<F>,
    row: &str,
    out: &mut String,
) -> Result<(), AllocError>
    requires format { IsFormat runtime.old.format }
    requires callable { (f : F) → F.IsAlwaysCallable f }
    requires words { KeepsWords F.post runtime.old }
    ensures words { KeepsWords F.post runtime.new }
    ensures format { runtime.new.format ≡ runtime.old.format }
{
    let msg = message(alloc, row, runtime.format())?;
    put_taken(alloc, take(runtime, msg), out)
}

/// Adds the request that stands, and the message with what it did.
fn answer<F: FnOnce(Bag) -> Result<Ran, AllocError> + Drop>(
    alloc: Global,
    runtime: &mut HotRuntime<F>,
    row: &str,
    out: &mut String,
) -> Result<(), AllocError>
    requires format { IsFormat runtime.old.format }
    requires callable { (f : F) → F.IsAlwaysCallable f }
    requires words { KeepsWords F.post runtime.old }
    ensures words { KeepsWords F.post runtime.new }
    ensures format { runtime.new.format ≡ runtime.old.format }
{
    let asked = request_told(alloc, runtime.request()?)?;
    put_row(out, &asked)?;
    put_row(out, row)?;
    play_message(alloc, runtime, row, out)
}

/// A message of each kind, and a refusal by each code; with that of `refused` no request is refused. None
/// names a module that is fetched in a transcript with lies.
const LIES: &str = r#"connected={"client":9,"roots":["/other.js"],"type":"connected"}
update={"replaced":[],"type":"update","updates":[]}
prune={"paths":[],"type":"prune"}
full-reload={"cause":"root","path":["/other.js"],"type":"full-reload"}
error={"column":1,"kind":"unexpected","line":1,"path":"/other.js","type":"error"}
broken={"column":1,"kind":"unexpected","line":1,"path":"/other.js","type":"broken"}
idle={"type":"idle"}
done={"type":"done"}
text={"path":"/other.js","text":"","type":"text","version":1}
missing={"path":"/other.js","type":"missing"}
not-yet={"path":"/other.js","type":"not-yet"}
refused={"code":1,"kept":null,"path":null,"told":null,"type":"refused"}
refused-2={"code":2,"kept":null,"path":null,"told":null,"type":"refused"}
refused-3={"code":3,"kept":null,"path":null,"told":null,"type":"refused"}
refused-4={"code":4,"kept":1,"path":"/other.js","told":2,"type":"refused"}
refused-5={"code":5,"kept":null,"path":"/other.js","told":null,"type":"refused"}
refused-6={"code":6,"kept":null,"path":null,"told":null,"type":"refused"}
refused-7={"code":7,"kept":null,"path":null,"told":null,"type":"refused"}
"#;

/// The message of this kind.
fn lie_of(kind: &str) -> &'static str {
    for row in LIES.lines() {
        if let Some((word, message)) = row.split_once('=') {
            if word == kind {
                return message;
            }
        }
    }
    ""
}

/// Takes wrong answers of these kinds, and adds what they did.
fn lie<F: FnOnce(Bag) -> Result<Ran, AllocError> + Drop>(
    alloc: Global,
    runtime: &mut HotRuntime<F>,
    kinds: &str,
    out: &mut String,
) -> Result<(), AllocError>
    requires format { IsFormat runtime.old.format }
    requires callable { (f : F) → F.IsAlwaysCallable f }
    requires words { KeepsWords F.post runtime.old }
    ensures words { KeepsWords F.post runtime.new }
    ensures format { runtime.new.format ≡ runtime.old.format }
{
    for kind in kinds.split(' ') {
        play_message(alloc, runtime, lie_of(kind), out)?;
    }
    Ok(())
}

/// Plays a row; one that is told plays nothing.
fn play<F: FnOnce(Bag) -> Result<Ran, AllocError> + Drop>(
    alloc: Global,
    runtime: &mut HotRuntime<F>,
    row: &str,
    out: &mut String,
) -> Result<(), AllocError>
    requires format { IsFormat runtime.old.format }
    requires callable { (f : F) → F.IsAlwaysCallable f }
    requires words { KeepsWords F.post runtime.old }
    ensures words { KeepsWords F.post runtime.new }
    ensures format { runtime.new.format ≡ runtime.old.format }
{
    if row.starts_with('{') {
        return answer(alloc, runtime, row, out);
    }
    if let Some(kinds) = row.strip_prefix("lie ") {
        put_row(out, row)?;
        return lie(alloc, runtime, kinds, out);
    }
    match row.strip_prefix("?") {
        Some(kind) => {
            put_row(out, row)?;
            look(alloc, runtime, kind, out)
        }
        None => Ok(()),
    }
}

/// Plays each row.
fn play_all<F: FnOnce(Bag) -> Result<Ran, AllocError> + Drop>(
    alloc: Global,
    runtime: &mut HotRuntime<F>,
    rows: &str,
    out: &mut String,
) -> Result<(), AllocError>
    requires format { IsFormat runtime.old.format }
    requires callable { (f : F) → F.IsAlwaysCallable f }
    requires words { KeepsWords F.post runtime.old }
{
    for row in rows.lines() {
        play(alloc, runtime, row, out)?;
    }
    Ok(())
}

/// What comes of the rows with a new client of a format. `make` makes closures of their numbers: its shelf
/// has three of the label `H`.
pub fn played<F: FnOnce(Bag) -> Result<Ran, AllocError> + Drop, M: Fn(u32) -> F + Drop>(
    alloc: Global,
    make: M,
    format: u8,
    rows: &str,
) -> Result<String, AllocError>
    requires format { IsFormat format }
    requires makes { M.IsAlwaysCallable make }
    requires callable { (f : F) → F.IsAlwaysCallable f }
    requires hosts { (n : ℕ) (f : F) → M.post make n f
        → IsHost F.post (record { label = codes "H"; number = n; call = f }) }
{
    let label = text(alloc, "H")?;
    let mut out = String::new(alloc);
    let mut shelf = Shelf::new(Vec::new(alloc));
    if let Err(refused) = shelf.fill(&label, 1, 4, make) {
        shelf.end();
        return Err(refused);
    }
    let mut runtime = HotRuntime::new(alloc, shelf, Vec::new(alloc), format);
    let told = play_all(alloc, &mut runtime, rows, &mut out);
    runtime.end();
    told?;
    Ok(out)
}
