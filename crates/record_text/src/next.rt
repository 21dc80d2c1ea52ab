// What may come next in a record.
ghost use Rattle.std.specs.Prelude.{◌≡◌};
ghost use Rattle.record_text.specs.Order.{after, at_first, has_text, may_stand};

use crate::record::RecordEvent;
use crate::said::Said;

/// What may come next in a record.
#[derive(Clone, Copy, Debug, Eq, PartialEq)]
pub struct Next {
    /// A root.
    pub root: bool,
    /// An event, or the end of the record.
    pub event: bool,
    /// A piece of the text of the event above.
    pub text: bool,
    /// The reply to the event above.
    pub reply: bool,
    /// A client at rest.
    pub rest: bool,
}

/// Nothing may come next.
const NOTHING: Next = Next {
    root: false,
    event: false,
    text: false,
    reply: false,
    rest: false,
};

impl Next {
    /// What a record may begin with: a root.
    pub fn at_first() -> Next
        ensures { result ≡ at_first }
    {
        Next {
            root: true,
            ..NOTHING
        }
    }

    /// What may come behind a line that says this.
    pub fn after(said: &Said) -> Next
        ensures { result ≡ after said.now }
    {
        match said {
            Said::Root(_) => Next {
                root: true,
                event: true,
                ..NOTHING
            },
            Said::Event(event) => Next {
                text: has_text(event),
                reply: true,
                ..NOTHING
            },
            Said::Text(_) => Next {
                text: true,
                reply: true,
                ..NOTHING
            },
            Said::Last(_) => Next {
                reply: true,
                ..NOTHING
            },
            Said::Reply(_) => Next {
                event: true,
                rest: true,
                ..NOTHING
            },
            Said::Rest(_, _) => Next {
                event: true,
                ..NOTHING
            },
        }
    }

    /// Whether a line that says this may come.
    pub fn allows(self, said: &Said) -> bool
        ensures { result ≡ may_stand said.now self }
    {
        match said {
            Said::Root(_) => self.root,
            Said::Event(_) => self.event,
            Said::Text(_) => self.text,
            Said::Last(_) => self.text,
            Said::Reply(_) => self.reply,
            Said::Rest(_, _) => self.rest,
        }
    }
}

/// Whether an event has a text.
pub fn has_text(event: &RecordEvent) -> bool
    ensures { result ≡ has_text event.now }
{
    matches!(
        event,
        RecordEvent::Edit(_, _) | RecordEvent::Settle(_, _, _)
    )
}
