// Who makes the edits that a folder brings.
ghost use Rattle.std.specs.Prelude.{◌≡◌, [], List, true};
ghost use Rattle.std.specs.Arc.{arc_value};
ghost use Rattle.std.specs.Option.{ForSome};
ghost use Rattle.hmr_types.specs.ModName.{is_name};
ghost use Rattle.live_site.specs.CoreTexts.{IsShort};
ghost use Rattle.transform_pool.specs.Passes as pool;
ghost use Rattle.transform_pool.specs.Roles.{putting};
ghost use Rattle.hmr_hub.specs.Calls.{SameKnower};
ghost use Rattle.hmr_hub.specs.Passes.{HasTranscript, IsPassOf, number_of};
ghost use Rattle.hmr_hub.specs.declared.pass.Pass.{Pass};
ghost use Rattle.hub_editor.specs.Edits.{Made};
ghost use Rattle.hub_editor.specs.Editing.{Edited, made_by};
ghost use Rattle.live_editor.specs.Editors.{GoesOn};

use crate::known::{Known, text_of};
use crate::live_editor::LiveEditor;
use hmr_hub::{Hub, Pass};
use hmr_types::ModName;
use hub_editor::{EditStop, Editor, HubCaller};
use live_context::{Context, LiveEnd, Shared};
use live_folder::{Change, Look, PassedOver, SkipCause};
use live_lines::{News, PassedCause};
use live_site::Site;
use std::alloc::{AllocError, Global};
use std::sync::{Arc, Wait};
use std::thread::Parker;
use std::time::Duration;
use transform_pool::{JobPass, JobQueue};

/// How many jobs may wait for workers before the next edit is made.
const MOST_WAITING: u64 = 48;

/// How many wait at most once edits are made again.
const FEW_WAITING: u64 = 16;

/// How often it is looked whether fewer wait, and how far apart in microseconds: two seconds in all.
const LOOKS: u32 = 20_000;

const LOOK_MICROS: u64 = 100;

impl LiveEditor {
    /// An editor that made no edit.
    pub fn new(
        alloc: Global,
        hub: Arc<Hub, Global>,
        queue: Arc<JobQueue, Global>,
        pass: Pass,
        jobs: JobPass,
    ) -> LiveEditor
        requires of { IsPassOf (arc_value hub) pass }
        requires number { number_of pass ≡ 0 }
        requires of_queue { pool.IsPassOf (arc_value queue) jobs }
        requires puts { pool.role_of jobs ≡ putting }
        ensures hub { result.hub ≡ hub }
        ensures pass { result.pass ≡ pass }
        ensures none { made_by result.editor ≡ [] }
    {
        LiveEditor {
            hub,
            queue,
            pass,
            jobs,
            editor: Editor::new(alloc),
        }
    }

    /// Makes the edits that a look brings, and tells what there is to tell. Some: the server ends. It waits.
    pub(crate) fn take<R: Wait, S: Site + Drop>(
        &mut self,
        context: &Context<R, S>,
        known: &mut Known,
        look: Look,
    ) -> Option<LiveEnd>
        ensures goes { GoesOn self.old self.new }
    {
        let Look {
            changes,
            passed,
            away,
        } = look;
        if let Some(news) = known.note_away(away) {
            context.tell(news);
        }
        tell_passed(context, passed);
        self.make_each(context, known, changes)
    }

    // Makes edits one after another, up to the first that ends the server, and rings for them.
    fn make_each<R: Wait, S: Site + Drop>(
        &mut self,
        context: &Context<R, S>,
        known: &mut Known,
        changes: Vec<Change>,
    ) -> Option<LiveEnd>
        ensures goes { GoesOn self.old self.new }
    {
        let before = known.counted();
        for change in changes {
            if let Some(end) = self.make(context, known, change) {
                return Some(end);
            }
        }
        if known.counted() != before {
            context.shared.bell.ring();
        }
        None
    }

    // Makes an edit, unless the file of the module has this text.
    fn make<R: Wait, S: Site + Drop>(
        &mut self,
        context: &Context<R, S>,
        known: &mut Known,
        change: Change,
    ) -> Option<LiveEnd>
        ensures goes { GoesOn self.old self.new }
    {
        let (name, text) = change.into_parts();
        if known.has(&name, &text) {
            return None;
        }
        wait_for_workers(context, known);
        let Ok(read) = read_change(context.alloc, &context.shared, known, name, text) else {
            return Some(LiveEnd::NoMemory);
        };
        let ReadChange {
            name,
            own_name,
            told,
            text,
            file,
        } = read;
        if told.is_none() && text.is_some() {
            tell_passed_over(context, &own_name, PassedCause::TextTooLong);
            return None;
        }
        let made = self.edit(&context.rt, context.alloc, name, told);
        note(context, known, own_name, text, file, made)
    }

    // Makes an edit.
    #[tactic(auto, using(crate::proofs::Editing::short_edit))]
    fn edit<R: Wait>(
        &mut self,
        rt: &R,
        alloc: Global,
        name: ModName,
        text: Option<Vec<u8>>,
    ) -> Result<(), EditStop>
        requires name { is_name name ≡ true }
        requires short { ForSome text IsShort }
        ensures goes { GoesOn self.old self.new }
    {
        let caller = HubCaller {
            rt,
            alloc,
            hub: &self.hub,
        };
        self.editor.edit(
            &caller,
            &mut self.pass,
            &self.queue,
            &mut self.jobs,
            (name, text),
        )
    }

    /// Closes the queue, and works what it hands back, where there is memory and a place for the result. It
    /// gives the pass. It waits.
    pub fn close<R: Wait>(self, rt: &R, alloc: Global) -> Pass
        ensures of { IsPassOf (arc_value self.hub) result }
        ensures same { SameKnower self.pass result }
        ensures transcript { HasTranscript self.pass → HasTranscript result }
        ensures edited { (p : Pass) → Edited p self.pass (made_by self.editor)
            → (made : List Made) × Edited p result made }
    {
        let LiveEditor {
            hub,
            queue,
            mut pass,
            mut jobs,
            mut editor,
        } = self;
        let caller = HubCaller {
            rt,
            alloc,
            hub: &hub,
        };
        let _closed = editor.close(&caller, &mut pass, &queue, &mut jobs);
        pass
    }
}

// Where many jobs wait for workers, waits until few do, for two seconds at most.
fn wait_for_workers<R: Wait, S: Drop>(context: &Context<R, S>, known: &Known) {
    let waiting = known.jobs().saturating_sub(context.shared.bell.results());
    if waiting > MOST_WAITING {
        wait_for_results(context, known.jobs().saturating_sub(FEW_WAITING));
    }
}

/// Waits until workers have told so many results, for two seconds at most.
pub(crate) fn wait_for_results<R: Wait, S: Drop>(context: &Context<R, S>, results: u64) {
    let parker = Parker::new();
    for _ in 0..LOOKS {
        if context.shared.bell.results() >= results {
            return;
        }
        parker.park_timeout(&context.rt, Duration::from_micros(LOOK_MICROS));
    }
}

// A change as the site reads it.
#[derive(Drop)]
struct ReadChange<S: Site + Drop> {
    name: ModName,
    own_name: ModName,
    // What the core is told; None where the file is gone, or would be too long for the core.
    told: Option<Vec<u8>>,
    text: Option<Vec<u8>>,
    file: Option<S::File>,
    ghost is_name: { is_name name ≡ true },
    ghost short: { ForSome told IsShort },
}

fn read_change<S: Site + Drop>(
    alloc: Global,
    shared: &Shared<S>,
    known: &Known,
    name: ModName,
    text: Option<Vec<u8>>,
) -> Result<ReadChange<S>, AllocError>
    requires is_name { is_name name ≡ true }
{
    let own_name = name.clone()?;
    let Some(text) = text else {
        return Ok(ReadChange {
            name,
            own_name,
            told: None,
            text: None,
            file: None,
        });
    };
    let version = known.counted().saturating_add(1);
    let file = shared.site.read(alloc, &name, version, &text)?;
    let told = shared.site.core_text(alloc, &file)?;
    Ok(ReadChange {
        name,
        own_name,
        told,
        text: Some(text),
        file: Some(file),
    })
}

// Notes and tells what came of an edit. Some: the server ends.
fn note<R: Wait, S: Site + Drop>(
    context: &Context<R, S>,
    known: &mut Known,
    name: ModName,
    text: Option<Vec<u8>>,
    file: Option<S::File>,
    made: Result<(), EditStop>,
) -> Option<LiveEnd> {
    let cause = match made {
        Ok(()) => {
            let has_job = text.is_some();
            let kept = keep(context, known, name, text, file);
            // A worker takes no job before it is noted, so the site has the file before its result is told.
            if has_job {
                context.shared.bell.note_job();
            }
            return match kept {
                Ok(()) => None,
                Err(_) => Some(LiveEnd::NoMemory),
            };
        }
        Err(EditStop::Full) => return Some(LiveEnd::Full),
        Err(EditStop::NoMemory) => return Some(LiveEnd::NoMemory),
        Err(EditStop::Text) => PassedCause::TextTooLong,
        Err(EditStop::Names) => PassedCause::TooManyNames,
        Err(EditStop::Sources) => PassedCause::SourceTotal,
    };
    tell_passed_over(context, &name, cause);
    None
}

// Keeps what a file is by an edit that was made, and tells it.
fn keep<R: Wait, S: Site + Drop>(
    context: &Context<R, S>,
    known: &mut Known,
    name: ModName,
    text: Option<Vec<u8>>,
    file: Option<S::File>,
) -> Result<(), AllocError> {
    let version = known.counted().saturating_add(1);
    context.shared.site.keep(&context.rt, &name, version, file)?;
    let news = known.note(name, text)?;
    context.tell(news);
    Ok(())
}

// Tells that a file was passed over.
fn tell_passed_over<R: Wait, S: Drop>(context: &Context<R, S>, name: &ModName, cause: PassedCause) {
    if let Ok(path) = text_of(context.alloc, name) {
        context.tell(News::Passed { path, cause });
    }
}

// Tells which files were passed over.
fn tell_passed<R: Wait, S: Drop>(context: &Context<R, S>, passed: Vec<PassedOver>) {
    for PassedOver { path, cause } in passed {
        let cause = match cause {
            SkipCause::TextTooLong => PassedCause::FileTooLong,
            SkipCause::BadName => PassedCause::BadName,
            SkipCause::Unreadable => PassedCause::Unreadable,
            SkipCause::Outside => PassedCause::Outside,
        };
        context.tell(News::Passed { path, cause });
    }
}
