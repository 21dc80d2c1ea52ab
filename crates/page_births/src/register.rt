// What an evaluation registered is registered with its instance, in order: code as it is, a closure once it
// is taken off the shelf. Where no closure of the label is left, a line tells it.
ghost use Rattle.std.specs.Prelude.{◌≡◌, ◌<◌, ◌∷◌, [], false, length, map, OnOk};
ghost use Rattle.std.specs.List.{All};
ghost use Rattle.client_model.specs.Instance.{is_dep};
ghost use Rattle.module_semantics.specs.Analysis.{meant};
ghost use Rattle.module_tree.specs.Syntax as syntax;
ghost use Rattle.module_tree.specs.Tree.{handler_of, once_of};
ghost use Rattle.page_births.specs.Births.{IsCodeForDeps, Registers, entry_of};
ghost use Rattle.page_state.specs.Standing.{KeepWords};

use crate::imports::meant;
use handler_table::{Handler, shelves_keep_their_word};
use hmr_types::{HandlerKind, ModName, Sequence, Text};
use module_semantics::Registered;
use module_tree::{HandlerCode, Once};
use output_lines::{Handled, OutLine};
use page_state::Page;
use retained_data::{Bag, Ran};
use std::alloc::{AllocError, Global};

/// Registers these with the instance at a place, which is of this name. Adds a line for each label of
/// which no closure is left. It fails only where memory runs out; the page can't be used then. It takes
/// time in proportion to the handlers that it registers and to those that they displace.
pub fn register_all<F: FnOnce(Bag) -> Result<Ran, AllocError> + Drop>(
    page: &mut Page<F>,
    alloc: Global,
    place: usize,
    name: &ModName,
    entries: Vec<Registered>,
    lines: &mut Vec<OutLine>,
) -> Result<(), AllocError>
    requires place { place < length page.old.instances.items }
    requires codes { All (λ r. IsCodeForDeps r.kind (once_of r.what)) entries.items }
    requires words { KeepWords F.post page.old }
    ensures words { OnOk result (KeepWords F.post page.new) }
    ensures registers { OnOk result (Registers name.now (map (entry_of name.now) entries.items) place
        page.old page.new lines.old.items lines.new.items) }
{
    for entry in entries {
        register(page, alloc, place, name, entry, lines)?;
    }
    Ok(())
}

/// Registers one handler.
fn register<F: FnOnce(Bag) -> Result<Ran, AllocError> + Drop>(
    page: &mut Page<F>,
    alloc: Global,
    place: usize,
    name: &ModName,
    entry: Registered,
    lines: &mut Vec<OutLine>,
) -> Result<(), AllocError>
    requires place { place < length page.old.instances.items }
    requires codes { IsCodeForDeps entry.kind (once_of entry.what) }
    requires words { KeepWords F.post page.old }
    ensures words { OnOk result (KeepWords F.post page.new) }
    ensures registers { OnOk result (Registers name.now (entry_of name.now entry ∷ []) place
        page.old page.new lines.old.items lines.new.items) }
{
    let Registered { kind, deps, what } = entry;
    match what {
        Once::Code(code) => {
            register_code(page, alloc, place, name, kind, deps, code)?;
            Ok(())
        }
        Once::Host(label) => {
            register_host(page, place, name, kind, label, lines)?;
            Ok(())
        }
    }
}

/// Registers code.
fn register_code<F: FnOnce(Bag) -> Result<Ran, AllocError> + Drop>(
    page: &mut Page<F>,
    alloc: Global,
    place: usize,
    name: &ModName,
    kind: HandlerKind,
    deps: Sequence<Text>,
    code: HandlerCode,
) -> Result<(), AllocError>
    requires place { place < length page.old.instances.items }
    requires words { KeepWords F.post page.old }
    ensures words { OnOk result (KeepWords F.post page.new) }
    ensures registers { (lines : _) → OnOk result (Registers name.now
        (record { kind = kind; deps = meant name.now deps; what = syntax.code (handler_of code) } ∷ [])
        place
        page.old page.new lines lines) }
{
    match kind {
        HandlerKind::Dep => {
            let deps = meant(alloc, name, deps.as_slice())?;
            page.instances[place].add_dep(deps, code)?;
            Ok(())
        }
        HandlerKind::Dispose | HandlerKind::Prune | HandlerKind::Own => {
            page.instances[place].hold(kind, Handler::Code(code), Handled::Code)?;
            Ok(())
        }
    }
}

/// Registers the first closure of this label that is left; else a line tells that none is.
fn register_host<F: FnOnce(Bag) -> Result<Ran, AllocError> + Drop>(
    page: &mut Page<F>,
    place: usize,
    name: &ModName,
    kind: HandlerKind,
    label: Text,
    lines: &mut Vec<OutLine>,
) -> Result<(), AllocError>
    requires place { place < length page.old.instances.items }
    requires kind { is_dep kind ≡ false }
    requires words { KeepWords F.post page.old }
    ensures words { OnOk result (KeepWords F.post page.new) }
    ensures registers { (deps : _) → OnOk result (Registers name.now
        (record { kind = kind; deps = deps; what = syntax.host label } ∷ []) place
        page.old page.new lines.old.items lines.new.items) }
{
    shelves_keep_their_word::<F>();
    match page.shelf.next(&label) {
        Some(held) => {
            let number = held.number();
            let handled = Handled::Host { label, number };
            page.instances[place].hold(kind, Handler::Host(held), handled)?;
            Ok(())
        }
        None => {
            lines.push(OutLine::NoHost {
                client: page.client,
                name: name.clone()?,
                label,
            })?;
            Ok(())
        }
    }
}
