// What was read of a record so far, and what may come behind it. What a line says is taken where it may
// stand.
ghost use Rattle.std.specs.Prelude.{◌≡◌, ◌++◌, ◌∷◌, [], IfOk, None, Some};
ghost use Rattle.std.specs.Option.{option_map};
ghost use Rattle.record_text.specs.Lines.{Gives};
ghost use Rattle.record_text.specs.Reading.{beginning, entries, placed, with_piece};
ghost use Rattle.record_text.specs.declared.record.RecordLine.TheVariants as kinds;

use crate::next::Next;
use crate::record::{Record, RecordEvent, RecordLine};
use crate::refusal::Refusal;
use crate::said::Said;
use hmr_types::{ClientId, ModName, Sequence, Table};
use std::alloc::{AllocError, Global};

/// A record so far.
#[derive(Drop)]
pub struct Draft {
    /// What may come next.
    pub next: Next,
    /// The event whose reply is to come.
    pub event: Option<RecordEvent>,
    /// The roots.
    pub roots: Sequence<ModName>,
    /// The entries, and the clients at rest.
    pub lines: Sequence<RecordLine>,
}

impl Draft {
    /// The record before its first line.
    pub(crate) fn new(alloc: Global) -> Draft
        ensures { result ≡ beginning }
    {
        Draft {
            next: Next::at_first(),
            event: None,
            roots: Sequence::new(alloc),
            lines: Sequence::new(alloc),
        }
    }

    /// The record so far behind a line that says this, where that may stand here.
    pub(crate) fn placed(self, said: Said) -> Result<Draft, Refusal>
        ensures { Gives (λ d. d) result (placed self said) }
    {
        if !self.next.allows(&said) {
            return Err(Refusal::BadLine);
        }
        let next = Next::after(&said);
        match said {
            Said::Root(name) => self.with_root(next, name),
            Said::Event(event) => Ok(self.with_event(next, event)),
            Said::Text(piece) => self.with_piece(next, piece),
            Said::Last(piece) => self.with_piece(next, piece),
            Said::Reply(reply) => self.with_reply(next, reply),
            Said::Rest(client, table) => self.with_rest(next, client, table),
        }
    }

    /// The record of what was read.
    pub(crate) fn into_record(self) -> Record
        ensures roots { result.roots ≡ self.roots }
        ensures lines { result.lines ≡ self.lines }
    {
        let Draft { roots, lines, .. } = self;
        Record { roots, lines }
    }

    fn with_root(self, next: Next, name: ModName) -> Result<Draft, Refusal>
        ensures { Gives (λ d. d) result (Some (record self { next = next; roots = self.roots ++ name ∷ [] })) }
    {
        let Draft {
            event,
            roots,
            lines,
            ..
        } = self;
        let mut names = roots.into_vec();
        names.push(name)?;
        Ok(Draft {
            next,
            event,
            roots: Sequence::from_vec(names),
            lines,
        })
    }

    fn with_event(self, next: Next, event: RecordEvent) -> Draft
        ensures { result ≡ record self { next = next; event = Some event } }
    {
        let Draft { roots, lines, .. } = self;
        Draft {
            next,
            event: Some(event),
            roots,
            lines,
        }
    }

    fn with_piece(self, next: Next, piece: Sequence<u8>) -> Result<Draft, Refusal>
        ensures { Gives
            (λ d. d)
            result (Some (record self { next = next; event = option_map (with_piece piece) self.event })) }
    {
        let Draft {
            event,
            roots,
            lines,
            ..
        } = self;
        let event = match event {
            Some(event) => Some(with_piece(event, &piece)?),
            None => None,
        };
        Ok(Draft {
            next,
            event,
            roots,
            lines,
        })
    }

    fn with_reply(self, next: Next, reply: Sequence<u8>) -> Result<Draft, Refusal>
        ensures { Gives
            (λ d. d)
            result
            (Some (record self { next = next; event = None; lines = self.lines ++ entries self.event reply })) }
    {
        let Draft {
            event,
            roots,
            lines,
            ..
        } = self;
        let mut lines = lines.into_vec();
        if let Some(event) = event {
            lines.push(RecordLine::Entry(event, reply))?;
        }
        Ok(Draft {
            next,
            event: None,
            roots,
            lines: Sequence::from_vec(lines),
        })
    }

    fn with_rest(self, next: Next, client: ClientId, table: Table) -> Result<Draft, Refusal>
        ensures { Gives
            (λ d. d)
            result
            (Some (record self { next = next; lines = self.lines ++ kinds.Rest client table ∷ [] })) }
    {
        let Draft {
            event,
            roots,
            lines,
            ..
        } = self;
        let mut lines = lines.into_vec();
        lines.push(RecordLine::Rest(client, table))?;
        Ok(Draft {
            next,
            event,
            roots,
            lines: Sequence::from_vec(lines),
        })
    }
}

/// An event with one more piece of its text. What was read of the text isn't copied again but where its room
/// ends, so all pieces take time in proportion to the text.
pub fn with_piece(event: RecordEvent, piece: &Sequence<u8>) -> Result<RecordEvent, AllocError>
    ensures { IfOk result (λ e. e ≡ with_piece piece.now event) }
{
    match event {
        RecordEvent::Edit(name, text) => Ok(RecordEvent::Edit(name, joined(text, piece)?)),
        RecordEvent::Settle(name, text, version) => {
            Ok(RecordEvent::Settle(name, joined(text, piece)?, version))
        }
        other => Ok(other),
    }
}

fn joined(text: Sequence<u8>, piece: &Sequence<u8>) -> Result<Sequence<u8>, AllocError>
    ensures { IfOk result (λ t. t ≡ text ++ piece.now) }
{
    let mut bytes = text.into_vec();
    bytes.extend_from_slice(piece.as_slice())?;
    Ok(Sequence::from_vec(bytes))
}
