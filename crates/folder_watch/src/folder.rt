// A folder that is still to be listed.
ghost use Rattle.std.specs.Prelude.{◌≡◌, ◌≤◌, length, true};
ghost use Rattle.folder_watch.specs.Watched.{is_open};

/// A folder that is still to be listed: its path is short, and each name in it one that is looked into.
#[derive(Drop)]
pub(crate) struct Folder<D> {
    pub path: Vec<u8>,
    pub dir: D,
    ghost short: { length path.items ≤ 255 },
    ghost open: { is_open path.items ≡ true },
}
