// A door in memory over any net: for each list of bytes that was handed in it gives one end of the net, which
// sends these bytes before it is opened.
ghost use Rattle.std.specs.Prelude.{◌≡◌, ◌≤◌, Some, IsSome, false, map};

use crate::{Door, MemVisitor, OutFault};
use std::alloc::Global;
use std::collections::VecDeque;
use transport::{Link, Net};

/// A door that gives the ends of a net, as many as lists of bytes were handed in, and then answers that no
/// more come. An end is refused where the net refuses it.
#[derive(Drop)]
pub struct MemDoor<N: Net + Drop> {
    net: N,
    coming: VecDeque<Vec<u8>>,
    visits: u64,
    out: bool,
    shut: bool,
    ghost heard: { IsSome (N.heard net) },
}

impl<N: Net + Drop> MemDoor<N> {
    /// A door over a net that listens, whose n-th end sends the n-th of these lists of bytes before it is
    /// opened.
    pub fn new(net: N, coming: VecDeque<Vec<u8>>) -> Self
        requires heard { IsSome (N.heard net) }
        ensures net { result.net ≡ net }
        ensures coming { result.coming ≡ coming }
        ensures none { (result.visits ≡ 0) × (result.out ≡ false) × (result.shut ≡ false) }
    {
        MemDoor {
            net,
            coming,
            visits: 0,
            out: false,
            shut: false,
        }
    }

    /// The net.
    pub fn into_net(self) -> N
        ensures { result ≡ self.net }
    {
        let MemDoor {
            net,
            coming: _,
            visits: _,
            out: _,
            shut: _,
        } = self;
        net
    }
}

impl<N: Net + Drop> Door for MemDoor<N>
where
    N::End: Drop,
{
    type End = MemVisitor<N::End>;

    ghost faults = { λ door. N.faults door.net };

    ghost is_shut = { λ door. door.shut };

    ghost is_out = { λ door. door.out };

    ghost visits = { λ door. door.visits };

    ghost coming = { λ door. Some (map (λ bytes. bytes.items) door.coming.items) };

    fn accept(&mut self, alloc: Global) -> Result<Option<MemVisitor<N::End>>, OutFault> {
        if self.coming.is_empty() {
            self.shut = true;
            return Ok(None);
        }
        let link = self.net.accept(alloc)?;
        let Some(bytes) = self.coming.pop_front() else {
            unreachable!()
        };
        self.visits = self.visits.saturating_add(1);
        self.out = true;
        Ok(Some(MemVisitor::new(alloc, link, bytes)))
    }

    fn pause(&self) {}

    fn retire(&mut self, end: MemVisitor<N::End>) {
        self.net.retire(end.into_link());
        self.out = false;
    }
}
