// A client of the program's own. It is no `Job`: what is known of its closures can stand in clauses alone,
// and a trait's `work` has none for them.
ghost use Rattle.std.specs.Prelude.{◌≡◌, All, [], false, true};
ghost use Rattle.transport.specs.declared.link.Phase.TheVariants.{Fresh};
ghost use Rattle.update_msgs.specs.Writable.{IsFormat};
ghost use Rattle.handler_table.specs.Held.{IsHost};
ghost use Rattle.runtime_state.specs.Standing.{KeepsWords, StandsFor};
ghost use Rattle.client_jobs.specs.Clients.{IsReady};

use client_sessions::client_session;
use handler_table::Shelf;
use hmr_types::{ClientId, ModName};
use output_lines::OutLine;
use retained_data::{Bag, Ran};
use runtime_state::HotRuntime;
use sessions::Ended;
use std::alloc::{AllocError, Global};
use transport::Link;

/// What a client begins with: the closures that its page may take, the roots of the page, where with none
/// it has the server's, and the format that the client speaks.
pub struct ClientOpening<F> {
    pub(crate) shelf: Shelf<F>,
    pub(crate) roots: Vec<ModName>,
    pub(crate) format: u8,
    ghost formatted: { IsFormat format },
}

/// A client that is to make so many requests over a fresh link.
#[derive(Drop)]
pub struct ClientJob<F: Drop, L: Link + Drop> {
    pub(crate) opening: ClientOpening<F>,
    pub(crate) link: L,
    pub(crate) turns: u32,
    ghost fresh: { L.phase link ≡ Fresh },
    ghost clean: { L.faults link ≡ 0 },
}

/// What a client's job ends in.
#[derive(Drop)]
pub struct ClientEnd<L> {
    /// The number that the server gave the client, 0 for none.
    pub client: ClientId,
    /// Its end of the link, which is shut.
    pub link: L,
    /// How its session ended, and the lines of what it took, in order. `None` exactly where the job was
    /// given up.
    pub told: Option<(Ended, Vec<OutLine>)>,
}

impl<F> ClientOpening<F> {
    /// With these closures, these roots and a format, 1 or 2.
    pub fn new(shelf: Shelf<F>, roots: Vec<ModName>, format: u8) -> Self
        requires format { IsFormat format }
        ensures shelf { result.shelf ≡ shelf }
        ensures roots { result.roots ≡ roots }
        ensures format { result.format ≡ format }
    {
        ClientOpening {
            shelf,
            roots,
            format,
        }
    }
}

impl<F: FnOnce(Bag) -> Result<Ran, AllocError> + Drop> ClientOpening<F> {
    ghost use Rattle.client_jobs.specs.ClientSessions.{opening_of};

    // The runtime that begins so.
    fn runtime(self, alloc: Global) -> HotRuntime<F>
        requires hosts { All (IsHost F.post) self.shelf }
        ensures stands { StandsFor (opening_of self) [] result }
        ensures format { result.format ≡ self.format }
        ensures words { KeepsWords F.post result }
    {
        let ClientOpening {
            shelf,
            roots,
            format,
        } = self;
        HotRuntime::new(alloc, shelf, roots, format)
    }
}

impl<F: Drop> Drop for ClientOpening<F> {
    fn drop(self) {
        let ClientOpening {
            shelf,
            roots: _,
            format: _,
        } = self;
        shelf.end();
    }
}

impl<F: FnOnce(Bag) -> Result<Ran, AllocError> + Drop, L: Link + Drop> ClientJob<F, L> {
    ghost use Rattle.client_jobs.specs.ClientSessions.{IsEndOf};

    /// The job of a client over a fresh link that never failed.
    pub fn new(opening: ClientOpening<F>, link: L, turns: u32) -> Self
        requires fresh { L.phase link ≡ Fresh }
        requires clean { L.faults link ≡ 0 }
        ensures opening { result.opening ≡ opening }
        ensures link { result.link ≡ link }
        ensures turns { result.turns ≡ turns }
    {
        ClientJob {
            opening,
            link,
            turns,
        }
    }

    /// Says hello, makes the requests and says bye, and closes the link. It waits.
    pub(crate) fn work(self, alloc: Global) -> ClientEnd<L>
        requires ready { IsReady F.post ((f : F) → F.IsAlwaysCallable f) self.opening.shelf }
        ensures { IsEndOf self result true }
    {
        let ClientJob {
            opening,
            mut link,
            turns,
        } = self;
        let mut runtime = opening.runtime(alloc);
        let told = client_session(alloc, &mut link, &mut runtime, turns);
        ClientEnd {
            client: runtime.client(),
            link,
            told: Some(told),
        }
    }

    /// Closes the link, over which nothing went.
    pub(crate) fn give_up(self) -> ClientEnd<L>
        ensures { IsEndOf self result false }
    {
        let ClientJob {
            opening: _,
            mut link,
            turns: _,
        } = self;
        link.close();
        ClientEnd {
            client: 0,
            link,
            told: None,
        }
    }
}
