// An event that was emitted. It stands on the heap once, however many clients it waits for.
ghost use Rattle.std.specs.Arc.{arc_value};
ghost use Rattle.std.specs.Prelude.{◌≡◌, All, IfOk, length};

use hmr_types::{ModName, Value};
use std::alloc::{AllocError, Global};
use std::marker::Model;
use std::sync::Arc;

/// An event: the module that stands for it, and its value. Contracts see the pair. Events that were emitted
/// at once share it.
#[derive(Drop)]
pub struct Event {
    shared: Arc<(ModName, Value), Global>,
}

impl Model for Event {
    ghost use Rattle.std.specs.Arc.{arc_value};
    ghost use Rattle.hot_events.specs.Calls.{Event};

    ghost Value = { Event };

    ghost view = { λ e. arc_value e.shared };
}

impl Event {
    /// The module that stands for the event, and its value.
    pub fn parts(&self) -> &(ModName, Value)
        ensures { result.now ≡ self.now }
    {
        &self.shared
    }

    /// So many events with this name and value, which they share. It takes the memory of one copy of both,
    /// and a few words for each event.
    pub(crate) fn shared(
        alloc: Global,
        event: &ModName,
        value: &Value,
        count: usize,
    ) -> Result<Vec<Event>, AllocError>
        ensures count { IfOk result (λ events. length events.items ≡ count) }
        ensures same { IfOk result (λ events. All (λ e. e ≡ (event.now, value.now)) events.items) }
    {
        let first = Arc::new(alloc, (event.clone()?, value.clone()?))?;
        let mut events = Vec::new(alloc);
        for _ in 0..count {
            let shared = Arc::try_clone(&first)?;
            events.push(Event { shared })?;
        }
        Ok(events)
    }
}
