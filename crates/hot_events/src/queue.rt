// The events that wait for one client, in a ring that has room for all that may.
ghost use Rattle.std.specs.Option.{option_map};
ghost use Rattle.std.specs.Prelude.{◌≡◌, ◌<◌, ◌++◌, ◌∷◌, [], IfOk, drop, length, nat_le};
ghost use Rattle.hot_events.specs.Calls.{first_of, is_many};

use crate::event::Event;
use std::alloc::{AllocError, Global};
use std::collections::VecDeque;
use std::marker::Model;

/// The most events that wait for one client.
pub const WAITING: usize = 1_024;

/// The events that wait for one client. Contracts see their list.
#[derive(Drop)]
pub(crate) struct Queue {
    events: VecDeque<Event>,
}

impl Model for Queue {
    ghost use Rattle.std.specs.Prelude.{◌≤◌, List};
    ghost use Rattle.std.specs.VecDeque.{deque_capacity};
    ghost use Rattle.hot_events.specs.Calls.{Event};

    ghost Value = { List Event };

    ghost view = { λ q. q.events.items };

    ghost invariant = { λ q. 1024 ≤ deque_capacity q.events };
}

impl Queue {
    /// No event waits. There is room for all that may, at once: 8 KiB.
    pub(crate) fn new(alloc: Global) -> Result<Queue, AllocError>
        ensures { IfOk result (λ q. q ≡ []) }
    {
        let events = VecDeque::with_capacity(alloc, WAITING)?;
        Ok(Queue { events })
    }

    /// Whether as many wait as may.
    pub(crate) fn is_full(&self) -> bool
        ensures { result ≡ is_many self.now }
    {
        self.events.len() >= WAITING
    }

    /// An event waits behind the others.
    pub(crate) fn add(&mut self, event: Event)
        requires { length self.old < 1024 }
        ensures { self.new ≡ self.old ++ event ∷ [] }
    {
        self.events.push_back_reserved(event);
    }

    /// The first event.
    pub(crate) fn first(&self) -> Option<&Event>
        ensures { option_map (λ e. e.now) result ≡ first_of self.now }
    {
        self.events.front()
    }

    /// The first event, which then waits no more.
    pub(crate) fn take_first(&mut self) -> Option<Event>
        ensures first { result ≡ first_of self.old }
        ensures rest { self.new ≡ drop 1 self.old }
    {
        self.events.pop_front()
    }
}
