// What is asked under the lock.
use events_and_replies::Event;
use hmr_types::ModName;
use std::marker::Model;

/// The kinds of questions.
#[derive(Drop)]
pub(crate) enum Kind {
    /// An event is told.
    Tell(Event),
    /// Whether the result for the name's source hasn't come.
    Outstanding(ModName),
    /// What there is to report.
    Report,
    /// The events that were told.
    Events,
}

/// A question, whose event is well formed; contracts see what the definitions have of it.
#[derive(Drop)]
pub(crate) struct Question {
    pub(crate) kind: Kind,
}

impl Model for Question {
    ghost use Rattle.hmr_hub.specs.Questions.{Asked};

    ghost Value = { Asked };

    ghost use Rattle.hmr_hub.specs.Kinds.{asked_of, IsFormedKind};

    ghost view = { λ q. asked_of q.kind };

    ghost invariant = { λ q. IsFormedKind q.kind };
}
