// The marks of a page: a module is marked where its version isn't the served one.
ghost use Rattle.std.specs.Prelude.{◌≡◌, OnOk, true};
ghost use Rattle.core_model.specs.Names.{Name, at, has};
ghost use Rattle.core_model.specs.View.{differs, is_in};
ghost use Rattle.client_queue.specs.Queue.{MarkIs, knows, mark_where_known};
ghost use Rattle.page_marks.specs.Marks.{AreRenewed, IsGrown, mark_on};

use client_queue::ClientQueue;
use hmr_types::ModName;
use module_graph::{View, copy_name};
use std::alloc::AllocError;
use version_map::VersionMap;

/// Whether the module is on the page at another version than the served one, or isn't served. It takes no
/// memory, and a look-up in the page and in the sources.
pub fn differs(view: &View, sources: &VersionMap, name: &ModName) -> bool
    ensures { result ≡ differs (at view.now name.now) (at sources.now.served name.now) }
{
    match (view.get(name), sources.served(name)) {
        (None, _) => false,
        (Some(_), None) => true,
        (Some((version, _)), Some(served)) => version != served.ver,
    }
}

/// Marks the name or not, where it is known. It takes no memory.
pub fn set_mark(queue: &mut ClientQueue, name: &ModName, mark: bool)
    ensures mark { MarkIs name.now
        (mark_where_known mark (at queue.old.known name.now)) queue.old queue.new }
    ensures kept { queue.new ≡ record queue.old { known = queue.new.known } }
{
    if mark {
        queue.mark(name);
    } else {
        queue.unmark(name);
    }
}

/// Each of the names is known from now on, where those of the page are. Where memory runs out some of them
/// are known, which is no change to the marks. Only those that aren't on the page take memory, each the room
/// of one name.
pub fn enter_all(queue: &mut ClientQueue, page: &View, names: &[ModName]) -> Result<(), AllocError>
    requires { (n : Name) → is_in page.now n ≡ true → knows queue.old n ≡ true }
    ensures grown { IsGrown queue.old queue.new }
    ensures known { OnOk result ((n : Name) → has names.now n ≡ true → knows queue.new n ≡ true) }
{
    for name in names {
        enter(queue, page, name)?;
    }
    Ok(())
}

fn enter(queue: &mut ClientQueue, page: &View, name: &ModName) -> Result<(), AllocError>
    requires { is_in page.now name.now ≡ true → knows queue.old name.now ≡ true }
    ensures grown { IsGrown queue.old queue.new }
    ensures known { OnOk result (knows queue.new name.now ≡ true) }
{
    if is_on(page, name) {
        return Ok(());
    }
    let copy = copy_name(name)?;
    queue.enter(copy)?;
    Ok(())
}

/// Each of the names is marked as its version on the page wants it; what isn't on the page is known no
/// more. It takes no memory, and for each name a look-up in the page, the sources and the queue.
pub fn renew_all(queue: &mut ClientQueue, names: &[ModName], page: &View, sources: &VersionMap)
    ensures { AreRenewed names.now page.now sources.now queue.old queue.new }
{
    for name in names {
        renew(queue, name, page, sources);
    }
}

fn renew(queue: &mut ClientQueue, name: &ModName, page: &View, sources: &VersionMap)
    ensures mark { MarkIs name.now
        (mark_on page.now sources.now name.now (at queue.old.known name.now)) queue.old queue.new }
    ensures kept { queue.new ≡ record queue.old { known = queue.new.known } }
{
    if is_on(page, name) {
        set_mark(queue, name, differs(page, sources, name));
    } else {
        queue.leave(name);
    }
}

/// Whether the page has the module. It takes no memory.
pub fn is_on(page: &View, name: &ModName) -> bool
    ensures { result ≡ is_in page.now name.now }
{
    page.get(name).is_some()
}
