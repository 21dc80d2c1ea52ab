// What the runtime does at each answer to its request.
ghost use Rattle.std.specs.Prelude.{◌≡◌, true, false, IfOk, OnOk};
ghost use Rattle.update_msgs.specs.Writable.{IsWritable};
ghost use Rattle.update_msgs.specs.declared.message.ClientMsg.{ClientMsg};
ghost use Rattle.client_model.specs.Answering.{answered, done};
ghost use Rattle.client_model.specs.Expecting.{answers_told, is_answer};
ghost use Rattle.client_model.specs.Requesting.{request};
ghost use Rattle.client_model.specs.Runtime.{Runtime};
ghost use Rattle.client_model.specs.Taking.{is_applied};
ghost use Rattle.module_language.specs.ModuleLanguage.{module_language};
ghost use Rattle.client_plan.specs.UnderWay.{is_applied_told, untold};
ghost use Rattle.runtime_state.specs.Becoming.{Becomes};
ghost use Rattle.runtime_state.specs.Standing.{HasRoom, IsSound, Keeps, KeepsWords};

use answer_kinds::{is_done, is_note};
use client_plan::Cause;
use output_lines::OutLine;
use plan_starts::{connect, start_reload, start_update};
use plan_steps::{apply, stage};
use retained_data::{Bag, Ran};
use runtime_answers::{abort, give_cause, idle, invalidated, refused, tell};
use runtime_events::prune;
use runtime_state::HotRuntime;
use std::alloc::AllocError;
use update_msgs::{ClientMsg, ServerMsg};

/// Does what the answer to this request does, which tells no modules, and gives the lines.
pub(crate) fn answer<F: FnOnce(Bag) -> Result<Ran, AllocError> + Drop>(
    runtime: &mut HotRuntime<F>,
    asked: ClientMsg,
    msg: ServerMsg,
) -> Result<Vec<OutLine>, AllocError>
    requires running { runtime.old.stopped ≡ false }
    requires writable { IsWritable runtime.old.format msg }
    requires fits { is_answer runtime.old.loaded asked msg ≡ true }
    requires room { is_applied asked msg ≡ true → HasRoom runtime.old }
    requires callable { (f : F) → F.IsAlwaysCallable f }
    requires words { KeepsWords F.post runtime.old }
    ensures becomes { (r : Runtime) → Keeps r runtime.old → IsSound runtime.old
        → untold (request module_language r) ≡ asked
        → IfOk result (λ lines. Becomes (answered module_language asked msg r) runtime.new lines.items) }
    ensures words { OnOk result (KeepsWords F.post runtime.new) }
    ensures format { runtime.new.format ≡ runtime.old.format }
    ensures stopped { runtime.new.stopped ≡ runtime.old.stopped }
{
    if is_done(&msg) {
        return done(runtime, asked);
    }
    if is_note(&msg) {
        return refused(runtime, asked);
    }
    take_news(runtime, msg)
}

// What the server tells of the page: all but that it took note, or refused.
fn take_news<F: FnOnce(Bag) -> Result<Ran, AllocError> + Drop>(
    runtime: &mut HotRuntime<F>,
    msg: ServerMsg,
) -> Result<Vec<OutLine>, AllocError>
    requires running { runtime.old.stopped ≡ false }
    requires writable { IsWritable runtime.old.format msg }
    requires callable { (f : F) → F.IsAlwaysCallable f }
    requires words { KeepsWords F.post runtime.old }
    ensures becomes { (r : Runtime) (asked : ClientMsg) → Keeps r runtime.old → IsSound runtime.old
        → untold (request module_language r) ≡ asked → is_answer runtime.old.loaded asked msg ≡ true
        → answers_told (λ code. true) msg ≡ false
        → IfOk result (λ lines. Becomes (answered module_language asked msg r) runtime.new lines.items) }
    ensures words { OnOk result (KeepsWords F.post runtime.new) }
    ensures format { runtime.new.format ≡ runtime.old.format }
    ensures stopped { runtime.new.stopped ≡ runtime.old.stopped }
{
    let client = runtime.page.client;
    match msg {
        ServerMsg::Connected { client, roots } => connect(runtime, client, roots),
        ServerMsg::Update {
            replaced,
            updates,
            batch,
            triggered,
        } => start_update(runtime, replaced, updates, batch, triggered),
        ServerMsg::Prune { paths } => prune(runtime, paths),
        ServerMsg::FullReload {
            cause,
            path,
            batch,
            triggered,
        } => start_reload(runtime, cause, path, batch, triggered),
        ServerMsg::Error {
            path,
            line,
            column,
            kind,
        } => tell(
            runtime,
            OutLine::Error {
                client,
                name: path,
                line,
                column,
                word: kind,
            },
        ),
        ServerMsg::Broken { path, .. } => give_cause(runtime, Cause::Broken(path)),
        ServerMsg::Idle => idle(runtime),
        ServerMsg::Done => idle(runtime),
        ServerMsg::Text {
            path,
            version,
            text,
        } => stage(runtime, path, version, text),
        ServerMsg::Missing { path } => give_cause(runtime, Cause::Missing(path)),
        ServerMsg::NotYet { path } => tell(runtime, OutLine::Wait { client, name: path }),
        ServerMsg::Refused { .. } => idle(runtime),
    }
}

// What was told is taken note of.
fn done<F: FnOnce(Bag) -> Result<Ran, AllocError> + Drop>(
    runtime: &mut HotRuntime<F>,
    asked: ClientMsg,
) -> Result<Vec<OutLine>, AllocError>
    requires running { runtime.old.stopped ≡ false }
    requires room { is_applied_told asked ≡ true → HasRoom runtime.old }
    requires callable { (f : F) → F.IsAlwaysCallable f }
    requires words { KeepsWords F.post runtime.old }
    ensures becomes { (r : Runtime) → Keeps r runtime.old → IsSound runtime.old
        → untold (request module_language r) ≡ asked
        → IfOk result (λ lines. Becomes (done asked module_language r) runtime.new lines.items) }
    ensures words { OnOk result (KeepsWords F.post runtime.new) }
    ensures format { runtime.new.format ≡ runtime.old.format }
    ensures stopped { runtime.new.stopped ≡ runtime.old.stopped }
{
    match asked {
        ClientMsg::Applied { .. } => apply(runtime),
        ClientMsg::Aborted { .. } => abort(runtime),
        ClientMsg::Invalidate { path, message, .. } => invalidated(runtime, path, message),
        ClientMsg::Hello { .. } | ClientMsg::Ask | ClientMsg::Fetch { .. } | ClientMsg::Bye => {
            idle(runtime)
        }
    }
}
