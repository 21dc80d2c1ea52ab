// What each exchange makes of what is known of a page.
ghost use Rattle.std.specs.Prelude.{◌≡◌, IfOk, OnOk, [], map};
ghost use Rattle.hmr_types.specs.declared.words.PlanKind.TheVariants.{Load, Reload, Update};
ghost use Rattle.live_lines.specs.Answering.{answered, at_rest, begin, connect, done, fetch};
ghost use Rattle.live_lines.specs.Answering.{pair_of, refusal_told, without_rows};

use crate::applying::apply;
use crate::instance::{Begun, Fetched, Instance};
use crate::page_log::PageLog;
use crate::{Asked, ImportedName, PageNews};
use hmr_types::{ClientId, ModName, PlanKind, Sequence, Ver};
use std::alloc::{AllocError, Global};
use std::collections::BTreeMap;
use update_msgs::{JsUpdate, ServerMsg};

/// What an exchange makes of what is known, and what there is to tell. The names are what a text imports
/// that the answer brings.
pub(crate) fn answered(
    log: &mut PageLog,
    alloc: Global,
    asked: Asked,
    answer: &ServerMsg,
    names: Vec<ImportedName>,
) -> Result<Option<PageNews>, AllocError>
    ensures { IfOk result (λ news. (log.new, news) ≡ answered asked answer.now names.items log.old) }
{
    match answer {
        ServerMsg::Connected { client, roots } => connect(log, alloc, asked, *client, roots),
        ServerMsg::Update { updates, .. } => {
            let accepted = pairs_of(alloc, updates.as_slice())?;
            begin(log, alloc, PlanKind::Update, accepted);
            Ok(None)
        }
        ServerMsg::Prune { paths } => {
            remove_all(&mut log.modules, paths.as_slice());
            let names = paths.clone()?;
            Ok(Some(PageNews::Pruned { names }))
        }
        ServerMsg::FullReload { cause, path, .. } => {
            let path = path.clone()?;
            begin(log, alloc, PlanKind::Reload, Sequence::new(alloc));
            Ok(Some(PageNews::Reload {
                cause: *cause,
                path,
            }))
        }
        ServerMsg::Text { path, version, .. } => {
            fetch(log, path, *version, names)?;
            Ok(None)
        }
        ServerMsg::Done => done(log, alloc, asked),
        ServerMsg::Refused { code, .. } => Ok(refuse(asked, *code)),
        ServerMsg::Error { .. }
        | ServerMsg::Broken { .. }
        | ServerMsg::Idle
        | ServerMsg::Missing { .. }
        | ServerMsg::NotYet { .. } => Ok(None),
    }
}

// A plan begins.
fn begin(log: &mut PageLog, alloc: Global, kind: PlanKind, accepted: Sequence<(ModName, ModName)>)
    ensures { log.new ≡ begin kind accepted log.old }
{
    log.staged = BTreeMap::new(alloc);
    log.under = Some(Begun { kind, accepted });
}

// No plan is under way.
pub(crate) fn rest(log: &mut PageLog, alloc: Global)
    ensures { log.new ≡ at_rest log.old }
{
    log.staged = BTreeMap::new(alloc);
    log.under = None;
}

fn connect(
    log: &mut PageLog,
    alloc: Global,
    asked: Asked,
    client: ClientId,
    roots: &Sequence<ModName>,
) -> Result<Option<PageNews>, AllocError>
    ensures { IfOk result (λ news. (log.new, news) ≡ connect asked client roots.now log.old) }
{
    match asked {
        Asked::Hello => {
            let roots = roots.clone()?;
            log.forget(alloc, client);
            begin(log, alloc, PlanKind::Load, Sequence::new(alloc));
            Ok(Some(PageNews::Opened { roots }))
        }
        Asked::Applied | Asked::Aborted { .. } | Asked::Bye | Asked::Other => {
            begin(log, alloc, PlanKind::Load, Sequence::new(alloc));
            Ok(None)
        }
    }
}

// Who accepts, and what is accepted.
fn pairs_of(alloc: Global, updates: &[JsUpdate]) -> Result<Sequence<(ModName, ModName)>, AllocError>
    ensures { IfOk result (λ pairs. pairs ≡ map pair_of updates.now) }
{
    let mut pairs = Vec::new(alloc);
    for update in updates {
        pairs.push((update.path.clone()?, update.accepted_path.clone()?))?;
    }
    Ok(Sequence::from_vec(pairs))
}

// The modules without these.
fn remove_all(modules: &mut BTreeMap<ModName, Instance>, names: &[ModName])
    ensures { modules.new.entries ≡ without_rows modules.old.entries names.now }
{
    for name in names {
        modules.remove(name);
    }
}

// A text came, which imports these names.
fn fetch(
    log: &mut PageLog,
    name: &ModName,
    version: Ver,
    names: Vec<ImportedName>,
) -> Result<(), AllocError>
    ensures { OnOk result (log.new ≡ fetch name.now version names.items log.old) }
{
    let name = name.clone()?;
    let names = Sequence::from_vec(names);
    log.staged.insert(name, Fetched { version, names })?;
    Ok(())
}

fn done(log: &mut PageLog, alloc: Global, asked: Asked) -> Result<Option<PageNews>, AllocError>
    ensures { IfOk result (λ news. (log.new, news) ≡ done asked log.old) }
{
    match asked {
        Asked::Applied => apply(log, alloc),
        Asked::Aborted {
            cause,
            path,
            from,
            name,
        } => {
            rest(log, alloc);
            Ok(Some(PageNews::Aborted {
                cause,
                path,
                from,
                name,
            }))
        }
        Asked::Bye => Ok(Some(PageNews::Closed)),
        Asked::Hello | Asked::Other => Ok(None),
    }
}

// What there is to tell of a refusal.
fn refuse(asked: Asked, code: u8) -> Option<PageNews>
    ensures { result ≡ refusal_told asked code }
{
    match asked {
        Asked::Hello => Some(PageNews::Refused { code }),
        Asked::Applied | Asked::Aborted { .. } | Asked::Bye | Asked::Other => None,
    }
}
