// The lines that the program writes, as values. Their exact bytes are the business of the crate that
// renders them.
use crate::{
    AbortWord, ClientState, EditWord, EndWord, FaultPlace, Handled, HandlerEnd, InstanceFate,
    InstanceStatus, RemoveWord, SettleWord,
};
use hmr_types::{
    ClientId, EvalFault, FaultWord, HandlerKind, ModName, Name, PlanKind, ReloadCause, Sequence,
    Slot, Text, Ver,
};

/// One line of output.
#[derive(Drop)]
pub enum OutLine {
    /// `edit NAME job V`, `edit NAME same` or `edit NAME refused WORD`.
    Edit {
        name: ModName,
        outcome: EditWord,
    },
    /// `remove NAME V`, `remove NAME same` or `remove NAME refused numbers-spent`.
    Remove {
        name: ModName,
        outcome: RemoveWord,
    },
    /// `settle NAME V` and `served`, `refused L:C WORD`, `late` or `none`.
    Settle {
        name: ModName,
        version: Ver,
        outcome: SettleWord,
    },
    /// `open C`.
    Open {
        client: ClientId,
    },
    /// `open refused`: no further client is taken.
    OpenRefused,
    /// `open bad-roots`: the roots named are more than 16, or two of them are equal.
    OpenBadRoots,
    /// `close C`.
    Close {
        client: ClientId,
    },
    /// `unknown C`: a step named a client that isn't open.
    Unknown {
        client: ClientId,
    },
    /// `C loaded`, `C reloaded` or `C updated`, after all lines of that plan.
    Applied {
        client: ClientId,
        plan: PlanKind,
    },
    /// `C reload root NAME..` or `C reload declined NAME..`: the unaccepted path, in its order.
    Reload {
        client: ClientId,
        cause: ReloadCause,
        path: Sequence<ModName>,
    },
    /// `C batch B by NAME..`: the number of the batch, and the changed and invalidated names that it
    /// is for. It stands before the line of a reload or an update.
    Batch {
        client: ClientId,
        batch: u64,
        triggered: Sequence<ModName>,
    },
    /// `C update NAME..`: the replaced names, sorted by bytes; a name that the message repeats stays.
    Update {
        client: ClientId,
        replaced: Sequence<ModName>,
    },
    /// `C accept BOUNDARY VIA`.
    Accept {
        client: ClientId,
        boundary: ModName,
        via: ModName,
    },
    /// `C aborted` and `missing NAME`, `broken NAME` or `link NAME FROM EXPORT`.
    Aborted {
        client: ClientId,
        outcome: AbortWord,
    },
    /// `C pruned NAME`.
    Pruned {
        client: ClientId,
        name: ModName,
    },
    /// `C error NAME L:C WORD`: line and column as the message has them.
    Error {
        client: ClientId,
        name: ModName,
        line: u64,
        column: u64,
        word: FaultWord,
    },
    /// `C wait NAME`.
    Wait {
        client: ClientId,
        name: ModName,
    },
    /// `C log NAME TEXT`: a console line, or the line of a host closure.
    Log {
        client: ClientId,
        name: ModName,
        text: Text,
    },
    /// `C fault NAME PLACE WORD`.
    Fault {
        client: ClientId,
        name: ModName,
        place: FaultPlace,
        fault: EvalFault,
    },
    /// `C unrun NAME`.
    Unrun {
        client: ClientId,
        name: ModName,
    },
    /// `C nohost NAME LABEL`.
    NoHost {
        client: ClientId,
        name: ModName,
        label: Text,
    },
    /// `C invalidated NAME MESSAGE`.
    Invalidated {
        client: ClientId,
        name: ModName,
        message: Text,
    },
    /// `C ignored NAME`.
    Ignored {
        client: ClientId,
        name: ModName,
    },
    /// `C full EVENT`: as many events wait for the client as may, so this one doesn't reach it. The event
    /// is named by its module, `/event/my/ping`, and written as `my:ping`.
    Full {
        client: ClientId,
        event: ModName,
    },
    /// `C quiet`: no event waits for the client.
    Quiet {
        client: ClientId,
    },
    /// `C busy`: the client can't hear now, and its events go on waiting.
    Busy {
        client: ClientId,
    },
    /// `C event EVENT`: the client hears this event, named by its module.
    Event {
        client: ClientId,
        event: ModName,
    },
    /// `C ended WORD`.
    Ended {
        client: ClientId,
        word: EndWord,
    },
    /// `client C up` or `client C behind`.
    Client {
        client: ClientId,
        state: ClientState,
    },
    /// `NAME V`: a module of a table.
    Module {
        name: ModName,
        version: Ver,
    },
    /// `stale B X`: the live instance of B is linked to an older instance of X.
    Stale {
        importer: ModName,
        dependency: ModName,
    },
    /// `values C`.
    Values {
        client: ClientId,
    },
    /// `value NAME EXPORT VALUE`.
    Value {
        name: ModName,
        export: Name,
        value: Slot,
    },
    /// `fates C`.
    Fates {
        client: ClientId,
    },
    /// `instance I NAME V STATUS FATE`.
    Instance {
        number: u32,
        name: ModName,
        version: Ver,
        status: InstanceStatus,
        fate: InstanceFate,
    },
    /// `KIND code END` or `KIND host LABEL NUMBER END`.
    Handler {
        kind: HandlerKind,
        handled: Handled,
        end: HandlerEnd,
    },
    /// `fresh`: the fresh load of the server's roots.
    Fresh,
    /// `fresh C`: the fresh load of a client's own roots.
    FreshOf {
        client: ClientId,
    },
    /// `missing NAME`: a name of the fresh load that isn't served.
    Missing {
        name: ModName,
    },
    /// `unlinked N M X`: N imports X of M, and the served M doesn't export it.
    Unlinked {
        importer: ModName,
        dependency: ModName,
        export: Name,
    },
}
