// The summary of the run of a generated script, read off the lines of the run.
ghost use Rattle.std.specs.List.{list_any};
ghost use Rattle.std.specs.Prelude.{◌≡◌, ◌++◌, IfOk, OnOk, count_by, string_bytes};
ghost use Rattle.made_scripts.specs.Summary.{answer, fresh_text, is_equal, is_fresh, is_instance, is_module};
ghost use Rattle.made_scripts.specs.Summary.{is_reload, is_up, is_update, module_text, reloads_text, shown_text};
ghost use Rattle.made_scripts.specs.Summary.{summary, summary_line, table_text, updates_text};

use hmr_types::PlanKind;
use output_lines::{ClientState, OutLine};
use play_text::put_line;
use std::alloc::{AllocError, Global};

/// The summary of a run, with its LF: the number of modules; how many of the lines tell that an update was
/// applied, and how many that a reload was; the number of instances that were made; and whether the
/// client is caught up and the table that is shown of it, before the line `fresh`, is that of the fresh
/// load, which is shown behind it. The time is linear in the lines.
pub fn summary(
    alloc: Global,
    count: u32,
    instances: u64,
    lines: &[OutLine],
) -> Result<Vec<u8>, AllocError>
    ensures { IfOk result (λ bytes. bytes.items ≡ summary count instances lines.now) }
{
    let updates = updates(lines);
    let reloads = reloads(lines);
    let equal = is_equal(alloc, lines)?;
    summary_line(alloc, count, updates, reloads, instances, equal)
}

fn summary_line(
    alloc: Global,
    count: u32,
    updates: usize,
    reloads: usize,
    instances: u64,
    equal: bool,
) -> Result<Vec<u8>, AllocError>
    ensures { IfOk result (λ bytes. bytes.items ≡ summary_line count updates reloads instances equal) }
{
    let updated = updates_text(alloc, count, updates)?;
    let reloaded = reloads_text(alloc, reloads, instances)?;
    let answer = answer(equal);
    let line = format!(in alloc; "{updated} {reloaded} equal {answer}\n")?;
    Ok(line.into_bytes())
}

fn updates_text(alloc: Global, count: u32, updates: usize) -> Result<String, AllocError>
    ensures { IfOk result (λ text. string_bytes text ≡ updates_text count updates) }
{
    format!(in alloc; "modules {count} updates {updates}")
}

fn reloads_text(alloc: Global, reloads: usize, instances: u64) -> Result<String, AllocError>
    ensures { IfOk result (λ text. string_bytes text ≡ reloads_text reloads instances) }
{
    format!(in alloc; "reloads {reloads} instances {instances}")
}

fn answer(equal: bool) -> &'static str
    ensures { result.now ≡ answer equal }
{
    if equal { "yes" } else { "no" }
}

fn updates(lines: &[OutLine]) -> usize
    ensures { result ≡ count_by is_update lines.now }
{
    let mut updates = 0;
    for line in lines {
        if is_update(line) {
            updates += 1;
        }
    }
    updates
}

#[tactic(auto, unfolding(crate::specs::Summary::is_update))]
fn is_update(line: &OutLine) -> bool
    ensures { result ≡ is_update line.now }
{
    matches!(
        line,
        OutLine::Applied {
            client: _,
            plan: PlanKind::Update
        }
    )
}

fn reloads(lines: &[OutLine]) -> usize
    ensures { result ≡ count_by is_reload lines.now }
{
    let mut reloads = 0;
    for line in lines {
        if is_reload(line) {
            reloads += 1;
        }
    }
    reloads
}

#[tactic(auto, unfolding(crate::specs::Summary::is_reload))]
fn is_reload(line: &OutLine) -> bool
    ensures { result ≡ is_reload line.now }
{
    matches!(
        line,
        OutLine::Applied {
            client: _,
            plan: PlanKind::Reload
        }
    )
}

/// How many of the lines are those of instances. The time is linear in the lines.
pub fn count_instances(lines: &[OutLine]) -> u64
    ensures { result ≡ count_by is_instance lines.now }
{
    let mut count = 0;
    for line in lines {
        if is_instance(line) {
            count += 1;
        }
    }
    count
}

/// Whether the line is that of an instance.
#[tactic(auto, unfolding(crate::specs::Summary::is_instance))]
fn is_instance(line: &OutLine) -> bool
    ensures { result ≡ is_instance line.now }
{
    matches!(
        line,
        OutLine::Instance {
            number: _,
            name: _,
            version: _,
            status: _,
            fate: _
        }
    )
}

/// Whether a client is shown as caught up, with the table of the fresh load.
fn is_equal(alloc: Global, lines: &[OutLine]) -> Result<bool, AllocError>
    ensures { IfOk result (λ equal. equal ≡ is_equal lines.now) }
{
    let shown = shown_text(alloc, lines)?;
    let fresh = fresh_text(alloc, lines)?;
    Ok(is_up(lines) && shown.as_slice() == fresh.as_slice())
}

/// The text of the table before the line `fresh`.
fn shown_text(alloc: Global, lines: &[OutLine]) -> Result<Vec<u8>, AllocError>
    ensures { IfOk result (λ text. text.items ≡ shown_text lines.now) }
{
    let mut text = Vec::new(alloc);
    for line in lines {
        if is_fresh(line) {
            return Ok(text);
        }
        put_module(&mut text, line)?;
    }
    Ok(text)
}

/// The text of the table behind the line `fresh`.
fn fresh_text(alloc: Global, lines: &[OutLine]) -> Result<Vec<u8>, AllocError>
    ensures { IfOk result (λ text. text.items ≡ fresh_text lines.now) }
{
    for (at, line) in lines.iter().enumerate() {
        if is_fresh(line) {
            return table_text(alloc, &lines[at + 1..]);
        }
    }
    Ok(Vec::new(alloc))
}

#[tactic(auto, unfolding(crate::specs::Summary::is_fresh))]
fn is_fresh(line: &OutLine) -> bool
    ensures { result ≡ is_fresh line.now }
{
    matches!(line, OutLine::Fresh)
}

fn is_up(lines: &[OutLine]) -> bool
    ensures { result ≡ list_any is_up lines.now }
{
    lines.iter().any(|line| shows_up(line))
}

#[tactic(auto, unfolding(crate::specs::Summary::is_up))]
fn shows_up(line: &OutLine) -> bool
    ensures { result ≡ is_up line.now }
{
    matches!(
        line,
        OutLine::Client {
            client: _,
            state: ClientState::Up
        }
    )
}

/// The text of the lines that show a module of a table.
fn table_text(alloc: Global, lines: &[OutLine]) -> Result<Vec<u8>, AllocError>
    ensures { IfOk result (λ text. text.items ≡ table_text lines.now) }
{
    let mut text = Vec::new(alloc);
    for line in lines {
        put_module(&mut text, line)?;
    }
    Ok(text)
}

fn put_module(text: &mut Vec<u8>, line: &OutLine) -> Result<(), AllocError>
    ensures { OnOk result (text.new.items ≡ text.old.items ++ module_text line.now) }
{
    if is_module(line) {
        put_line(text, line)?;
    }
    Ok(())
}

#[tactic(auto, unfolding(crate::specs::Summary::is_module))]
fn is_module(line: &OutLine) -> bool
    ensures { result ≡ is_module line.now }
{
    matches!(
        line,
        OutLine::Module {
            name: _,
            version: _
        }
    )
}
