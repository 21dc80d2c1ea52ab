// A folder with a page that is made for it while it has none of its own.
ghost use Rattle.std.specs.Prelude.{◌≡◌, ◌≤◌, IfOk, OnOk, codes, length, true};
ghost use Rattle.std.specs.List.{AllZip, list_any};
ghost use Rattle.hmr_types.specs.ModName.{is_text};
ghost use Rattle.live_folder.specs.Pages.{Makes, ShownAs, ShowsChanges, ShowsPage, is_told};
ghost use Rattle.live_folder.specs.Texts.{IsShort};

use crate::{Change, Look, PassedOver, Watched};
use hmr_types::{ModName, NameFault};
use std::alloc::{AllocError, Global};

/// The path of the page, and the name of its module.
const PAGE: &str = "/index.html";

/// A folder that is looked at, with the page `/index.html`. The first look that is answered also shows the
/// page, of a text that is made for it, unless it shows such a file of the folder, or passes it over.
/// Where a look of the folder shows that its file is gone, the page of the made text is shown in its
/// place.
#[derive(Drop)]
pub struct MadePage<W: Drop> {
    watched: W,
    page: ModName,
    text: Vec<u8>,
    // Whether no look was answered.
    is_due: bool,
    // A look of the folder that wasn't answered, since memory ran out.
    held: Option<Look>,
    ghost short: { IsShort text },
}

impl<W: Drop> MadePage<W> {
    /// This folder, of which nothing was looked at, with a page of this text of at most 64 MiB. `AllocError`
    /// where memory ran out.
    #[tactic(auto, unfolding(hmr_types::specs::ModName::is_segment_byte))]
    pub fn new(alloc: Global, watched: W, text: Vec<u8>) -> Result<Self, AllocError>
        requires short { IsShort text }
        ensures watched { IfOk result (λ made. made.watched ≡ watched) }
        ensures page { IfOk result (λ made. made.page ≡ codes "/index.html") }
        ensures text { IfOk result (λ made. made.text ≡ text) }
        ensures due { IfOk result (λ made. made.is_due ≡ true) }
    {
        let page = match ModName::read(alloc, PAGE.as_bytes()) {
            Ok(page) => page,
            Err(NameFault::NoMemory) => return Err(AllocError),
            Err(NameFault::NotAName) => unreachable!(),
        };
        Ok(MadePage {
            watched,
            page,
            text,
            is_due: true,
            held: None,
        })
    }
}

impl<W: Watched + Drop> MadePage<W> {
    // The look that wasn't answered, or the next one of the folder.
    fn next_look(&mut self, alloc: Global) -> Result<Look, AllocError>
        ensures page { self.new.page ≡ self.old.page }
        ensures text { self.new.text.items ≡ self.old.text.items }
        ensures due { self.new.is_due ≡ self.old.is_due }
    {
        match self.held.take() {
            Some(look) => Ok(look),
            None => self.watched.look(alloc),
        }
    }
}

impl<W: Watched + Drop> Watched for MadePage<W> {
    fn look(&mut self, alloc: Global) -> Result<Look, AllocError>
        ensures shows { IfOk result (λ shown. (look : Look)
            × ShowsPage self.old.page self.old.text.items self.old.is_due look shown) }
    {
        let mut look = self.next_look(alloc)?;
        match show_page(alloc, &self.page, &self.text, self.is_due, &mut look) {
            Ok(()) => {
                self.is_due = false;
                Ok(look)
            }
            Err(refused) => {
                self.held = Some(look);
                Err(refused)
            }
        }
    }
}

// Puts the page to what a look shows.
fn show_page(
    alloc: Global,
    page: &ModName,
    text: &[u8],
    is_due: bool,
    look: &mut Look,
) -> Result<(), AllocError>
    requires short { length text.now ≤ 67108864 }
    ensures { OnOk result (ShowsPage page.now text.now is_due look.old look.new) }
{
    let adds = is_due && !is_told(page, look);
    show_changes(alloc, page, text, adds, &mut look.changes)
}

// Makes the page in the place of each change that takes it away, and adds it where it is asked to.
fn show_changes(
    alloc: Global,
    page: &ModName,
    text: &[u8],
    adds: bool,
    changes: &mut Vec<Change>,
) -> Result<(), AllocError>
    requires short { length text.now ≤ 67108864 }
    ensures { OnOk result (ShowsChanges page.now text.now adds changes.old.items changes.new.items) }
{
    make_removed(alloc, page, text, changes)?;
    if adds {
        changes.push(made(alloc, page, text)?)?;
    }
    Ok(())
}

// Whether a look has a change of the page, or passed its file over.
fn is_told(page: &ModName, look: &Look) -> bool
    ensures { result ≡ is_told page.now look.now }
{
    has_page(page, &look.changes) || was_passed(page, &look.passed)
}

// Makes the page in the place of each change that takes it away.
fn make_removed(
    alloc: Global,
    page: &ModName,
    text: &[u8],
    changes: &mut [Change],
) -> Result<(), AllocError>
    requires short { length text.now ≤ 67108864 }
    ensures { OnOk result (AllZip (ShownAs page.now text.now) changes.old changes.new) }
{
    for change in changes.iter_mut() {
        show(alloc, page, text, change)?;
    }
    Ok(())
}

// Makes the page in the place of a change that takes it away.
fn show(alloc: Global, page: &ModName, text: &[u8], change: &mut Change) -> Result<(), AllocError>
    requires short { length text.now ≤ 67108864 }
    ensures { OnOk result (ShownAs page.now text.now change.old change.new) }
{
    if change.is_of(page) && change.is_removal() {
        *change = made(alloc, page, text)?;
    }
    Ok(())
}

// A change that makes the page.
fn made(alloc: Global, page: &ModName, text: &[u8]) -> Result<Change, AllocError>
    requires short { length text.now ≤ 67108864 }
    ensures { IfOk result (Makes page.now text.now) }
{
    Ok(Change::saved(page.clone()?, Vec::from_slice(alloc, text)?))
}

// Whether one of the changes is of the page.
fn has_page(page: &ModName, changes: &[Change]) -> bool
    ensures { result ≡ list_any (λ c. is_text c.name page.now) changes.now }
{
    changes.iter().any(|change| change.is_of(page))
}

// Whether the file of the page was passed over.
fn was_passed(page: &ModName, passed: &[PassedOver]) -> bool
    ensures { result ≡ list_any (λ p. is_text p.path page.now) passed.now }
{
    passed
        .iter()
        .any(|file| file.path.as_str() == page.as_str())
}
