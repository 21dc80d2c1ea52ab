// The commands of a script.
use hmr_types::{ClientId, ModName, Sequence, Text, Ver};

/// One command of a script.
#[derive(Drop)]
pub enum ScriptLine {
    /// `quiet`: from here on the lines of edits, results and openings that went well aren't written.
    Quiet,
    /// `edit NAME` and the `|` lines below it: gives the module this text.
    Edit(ModName, Sequence<u8>),
    /// `remove NAME`: takes the module away.
    Remove(ModName),
    /// `settle`: settles all issued jobs whose result hasn't come yet, by rising version.
    SettleAll,
    /// `settle NAME VERSION`: settles that job.
    Settle(ModName, Ver),
    /// `open NAME..` or `open2 NAME..`: connects a client of format 1 or 2 whose page has these roots;
    /// with no name, those of the script.
    Open(u8, Sequence<ModName>),
    /// `close C`: disconnects a client.
    Close(ClientId),
    /// `turn C`: one request of a client.
    Turn(ClientId),
    /// `turns C K`: turns of a client until it is caught up, at most K.
    Turns(ClientId, u32),
    /// `emit EVENT WORD`: emits an event, named here by its module, whose value is this text of at most
    /// 4,096 bytes.
    Emit(ModName, Text),
    /// `hear C`: lets a client hear the first event that waits for it.
    Hear(ClientId),
    /// `show C`: writes whether a client is caught up, its table and its stale edges.
    Show(ClientId),
    /// `values C`: writes the exports of a client's live modules.
    Values(ClientId),
    /// `fates C`: writes what became of each instance of a client.
    Fates(ClientId),
    /// `fresh`: writes what a page of the script's roots would load anew.
    Fresh,
    /// `fresh C`: writes what a client's page would load anew.
    FreshOf(ClientId),
}
