// What an exchange changed on a page, as a value.
use hmr_types::{ModName, ReloadCause, Sequence, Text, Ver};
use update_msgs::AbortCause;

/// An imported name that is bound to an instance that isn't the live one of its module any more.
#[derive(Debug, Drop)]
pub struct StaleBinding {
    /// The module that imports the name.
    pub importer: ModName,
    /// The module that the name is imported from.
    pub imported: ModName,
    /// The name, as an [`ImportedName`](crate::ImportedName) has it.
    pub name: Text,
    /// The version of the instance that the name is bound to.
    pub linked: Ver,
    /// The version of the live instance of the imported module.
    pub live: Ver,
}

/// What an exchange changed on a page.
#[derive(Debug, Drop)]
pub enum PageNews {
    /// The page has its number, and these roots; its load begins.
    Opened {
        roots: Sequence<ModName>,
    },
    /// The page wasn't taken: the number of the refusal, 2 where there are 32 pages, 7 for bad roots.
    Refused {
        code: u8,
    },
    /// A load was applied; the page has this many modules.
    Loaded {
        modules: u64,
    },
    /// The page is to be loaded again, since nothing on this path accepts the change at its start.
    Reload {
        cause: ReloadCause,
        path: Sequence<ModName>,
    },
    /// An update was applied: the modules whose version is another than before, with their versions; who
    /// accepted which module; and the bindings that are stale now, all of the page.
    Hot {
        changed: Sequence<(ModName, Ver)>,
        accepted: Sequence<(ModName, ModName)>,
        stale: Sequence<StaleBinding>,
    },
    /// A plan was given up, and the page is as it was. `path` is the module that couldn't be had; where the
    /// cause is a link, it is the importer, `from` the dependency, and `name` what that doesn't export.
    Aborted {
        cause: AbortCause,
        path: ModName,
        from: Option<ModName>,
        name: Option<Text>,
    },
    /// These modules left the page.
    Pruned {
        names: Sequence<ModName>,
    },
    /// The page is gone.
    Closed,
}
