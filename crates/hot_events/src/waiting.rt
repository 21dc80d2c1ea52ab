// The lists of all clients, by rising number.
//
// An event that is emitted is put on the heap once, and one more owner of it is made for each list, before
// anything is added: so where memory runs out, no list has it.
ghost use Rattle.std.specs.List.{insert};
ghost use Rattle.std.specs.Option.{option_map};
ghost use Rattle.std.specs.Prelude.{◌≡◌, ◌<◌, ◌≤◌, ℕ, [], ◌∷◌, All, IfNone, IfOk, IfSome, List, None};
ghost use Rattle.std.specs.Prelude.{OnErr, OnOk, drop, get_or, length, slice_set, vec_capacity, vec_len};
ghost use Rattle.hot_events.specs.Calls.{Call, Event, StandsFor, first, first_of, full, given, heard};
ghost use Rattle.hot_events.specs.Calls.{emits, enters, leaves, takes};
ghost use Rattle.hot_events.specs.Rows.{Row, added_to, added_to_each, first_in, full_in, rows_without};
ghost use Rattle.hot_events.specs.Rows.{taken_from, with_row};

use crate::event::Event;
use crate::queue::Queue;
use hmr_types::{ClientId, ModName, Value};
use std::alloc::{AllocError, Global};
use std::marker::Model;

/// The events that wait for clients. That they stand for a list of calls is the relation `StandsFor`.
#[derive(Drop)]
pub struct Waiting {
    alloc: Global,
    lists: Vec<(ClientId, Queue)>,
}

impl Model for Waiting {
    ghost use Rattle.std.specs.Prelude.{List};
    ghost use Rattle.hot_events.specs.Rows.{Row};

    ghost Value = { List Row };

    ghost view = { λ w. w.lists.items };
}

impl Waiting {
    /// No client is there.
    pub fn new(alloc: Global) -> Waiting
        ensures { StandsFor [] result }
    {
        Waiting {
            alloc,
            lists: Vec::new(alloc),
        }
    }

    /// A client is there from now on, and nothing waits for it; what waited for a client of its number is
    /// given up. It takes 8 KiB and some words; where memory runs out nothing changes.
    pub fn enter(&mut self, client: ClientId) -> Result<(), AllocError>
        ensures stands { (past : List Call) → StandsFor past self.old
            → OnOk result (StandsFor (enters client ∷ past) self.new) }
        ensures err { OnErr result (self.new ≡ self.old) }
    {
        let queue = Queue::new(self.alloc)?;
        self.lists.reserve(1)?;
        take_out(&mut self.lists, client);
        let place = place_for(&self.lists, client);
        match self.lists.insert(place, (client, queue)) {
            Ok(()) => Ok(()),
            Err(_) => unreachable!(),
        }
    }

    /// A client is there no more, and what waits for it is given up.
    pub fn leave(&mut self, client: ClientId)
        ensures { (past : List Call) → StandsFor past self.old → StandsFor (leaves client ∷ past) self.new }
    {
        take_out(&mut self.lists, client);
    }

    /// An event waits from now on for each client that is there and has fewer than 1,024 waiting. The others
    /// are answered, by rising number. Where memory runs out nothing changes, for any client.
    ///
    /// It takes the memory of one copy of the name and the value, and the time of the clients that are
    /// there, however many events wait.
    pub fn emit(&mut self, event: &ModName, value: &Value) -> Result<Vec<ClientId>, AllocError>
        ensures stands { (past : List Call) → StandsFor past self.old
            → OnOk result (StandsFor (emits event.now value.now ∷ past) self.new) }
        ensures answer { (past : List Call) → StandsFor past self.old
            → IfOk result (λ clients. clients.items ≡ full past) }
        ensures err { OnErr result (self.new ≡ self.old) }
    {
        let full = full_of(self.alloc, &self.lists)?;
        let events = Event::shared(self.alloc, event, value, self.lists.len())?;
        add_to_each(&mut self.lists, events);
        Ok(full)
    }

    /// The event that has waited longest for a client; None exactly where none waits for it.
    pub fn first(&self, client: ClientId) -> Option<&Event>
        ensures { (past : List Call) → StandsFor past self.now
            → option_map (λ e. e.now) result ≡ first past client }
    {
        match place_of(&self.lists, client) {
            Some(place) => self.lists[place].1.first(),
            None => None,
        }
    }

    /// The event that has waited longest for a client, which then waits for it no more; None exactly where
    /// none waits for it.
    pub fn take_first(&mut self, client: ClientId) -> Option<Event>
        ensures stands { (past : List Call) → StandsFor past self.old
            → StandsFor (takes client ∷ past) self.new }
        ensures answer { (past : List Call) → StandsFor past self.old → result ≡ first past client }
    {
        match place_of(&self.lists, client) {
            Some(place) => self.lists[place].1.take_first(),
            None => None,
        }
    }
}

// The clients for which as many events wait as may.
fn full_of(alloc: Global, lists: &[(ClientId, Queue)]) -> Result<Vec<ClientId>, AllocError>
    ensures { IfOk result (λ clients. clients.items ≡ full_in lists.now) }
{
    let mut clients = Vec::new(alloc);
    for row in lists {
        if row.1.is_full() {
            clients.push(row.0)?;
        }
    }
    Ok(clients)
}

// One event for each list, which are as many, is added where there is room.
fn add_to_each(lists: &mut [(ClientId, Queue)], events: Vec<Event>)
    requires { length events.items ≡ length lists.old }
    ensures { (event : Event) → All (λ e. e ≡ event) events.items
        → lists.new ≡ added_to_each event lists.old }
{
    let mut events = events;
    for place in 0..lists.len() {
        if let Some(event) = events.pop() {
            add_to(&mut lists[place].1, event);
        }
    }
}

// Where the list of a client stands.
fn place_of(lists: &[(ClientId, Queue)], client: ClientId) -> Option<usize>
    ensures none { IfNone result
        ((first_in client lists.now ≡ None) × (taken_from client lists.now ≡ lists.now)) }
    ensures within { IfSome result (λ place. place < length lists.now) }
    ensures first { IfSome result
        (λ place. (d : Row) → first_in client lists.now ≡ first_of (get_or lists.now place d).1) }
    ensures taken { IfSome result (λ place. (d : Row) → taken_from client lists.now
        ≡ slice_set lists.now place ((get_or lists.now place d).0, drop 1 (get_or lists.now place d).1)) }
{
    for place in 0..lists.len() {
        if lists[place].0 == client {
            return Some(place);
        }
    }
    None
}

fn add_to(queue: &mut Queue, event: Event)
    ensures { queue.new ≡ added_to event queue.old }
{
    if !queue.is_full() {
        queue.add(event);
    }
}

// The list of a client is given up. Its place stays, for another.
fn take_out(lists: &mut Vec<(ClientId, Queue)>, client: ClientId)
    ensures items { lists.new.items ≡ rows_without client lists.old.items }
    ensures bound { vec_len lists.new ≤ vec_len lists.old }
    ensures capacity { vec_capacity lists.new ≡ vec_capacity lists.old }
{
    lists.retain(|row| row.0 != client);
}

// Where the list of a client belongs among these, by rising number.
fn place_for(lists: &[(ClientId, Queue)], client: ClientId) -> usize
    ensures within { result ≤ length lists.now }
    ensures with { (row : Row) → row.0 ≡ client → insert lists.now result row ≡ with_row row lists.now }
{
    for place in 0..lists.len() {
        if lists[place].0 >= client {
            return place;
        }
    }
    lists.len()
}

/// What a client took since it entered is what it has heard: the events that were emitted while it was there
/// and fewer than 1,024 waited for it, in order, each once, without those that still wait or were given up.
pub fn what_is_taken_is_heard()
    ensures { (past : List Call) (client : ℕ) → given past client ≡ heard past client }
{}
