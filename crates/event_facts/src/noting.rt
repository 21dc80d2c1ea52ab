// What the types of an event keep of it, told of its bytes. A contract sees a name as its bytes alone, and a
// call of the name tells that they are one: so each name of the event is looked at.
ghost use Rattle.std.specs.Prelude.{◌≡◌, ◌≤◌, All, true};
ghost use Rattle.hmr_types.specs.declared.limits.TheConstants.{LARGEST_NUMBER};
ghost use Rattle.hmr_types.specs.Table.{is_table};
ghost use Rattle.module_semantics.specs.Analysis.{transformed};
ghost use Rattle.module_semantics.specs.ModuleText.{parsing};
ghost use Rattle.core_model.specs.Formed.{IsFormedOutcome, IsName};
ghost use Rattle.core_model.specs.Transcript.{IsTrueEvent};
ghost use Rattle.events_and_replies.specs.Said.{event_of};
ghost use Rattle.event_facts.specs.Tellable.{IsTellable};

use events_and_replies::Event;
use hmr_types::{ModName, Outcome, Table, Ver};
use transforms::Transformed;

/// The event is one that a record can tell: its names are names, its table is a table, and the place of a fault
/// in its result can be told. It takes time in the number of its names.
pub fn note_event(event: &Event)
    ensures { IsTellable (event_of event.now) }
{
    match event {
        Event::Edit(name, _) => note_name(name),
        Event::Settle(done, _) => {
            note_name(done.name());
            note_outcome(done.outcome());
        }
        Event::Connect(names) => note_names(names),
        Event::Fetch(_, name) | Event::Invalidate(_, name, _) => note_name(name),
        Event::Applied(_, table) => note_table(table),
        Event::Ask(_) | Event::Aborted(_) | Event::Disconnect(_) => (),
    }
}

/// Where the event is a result, it is that of transforming its text.
pub fn note_result(event: &Event)
    ensures { IsTrueEvent (transformed parsing) (event_of event.now) }
{
    match event {
        Event::Settle(done, _) => note_done(done),
        Event::Edit(_, _)
        | Event::Connect(_)
        | Event::Ask(_)
        | Event::Fetch(_, _)
        | Event::Applied(_, _)
        | Event::Aborted(_)
        | Event::Invalidate(_, _, _)
        | Event::Disconnect(_) => (),
    }
}

/// Each is the name of a module. It takes time in their number.
pub fn note_names(names: &[ModName])
    ensures { All IsName names.now }
{
    for name in names.iter() {
        note_name(name);
    }
}

fn note_done(done: &Transformed)
    ensures { done.now.outcome ≡ transformed parsing done.now.name done.now.text }
{
    let _outcome = done.outcome();
}

fn note_name(name: &ModName)
    ensures { IsName name.now }
{
    let _name = name.as_str();
}

fn note_table(table: &Table)
    ensures table { is_table table.now ≡ true }
    ensures names { All (λ row. IsName row.0) table.now }
{
    note_rows(table.as_slice());
}

fn note_rows(rows: &[(ModName, Ver)])
    ensures { All (λ row. IsName row.0) rows.now }
{
    for row in rows.iter() {
        note_name(&row.0);
    }
}

fn note_outcome(outcome: &Outcome)
    ensures { IsFormedOutcome outcome.now }
{
    match outcome {
        Outcome::Good(analysis) => {
            note_names(analysis.imports.as_slice());
            note_names(analysis.accepted.as_slice());
        }
        Outcome::Bad(fault) => note_place(fault.line, fault.col),
    }
}

// A place has 32 bits for the line and for the column.
fn note_place(line: u32, column: u32)
    ensures row { line ≤ LARGEST_NUMBER }
    ensures place { column ≤ LARGEST_NUMBER }
{}
