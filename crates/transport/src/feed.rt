// Where the messages of an end in memory come from and where they go: two pipes that another end holds
// too, or a list that was there from the start and a list of what was sent, which are told to contracts.
ghost use Rattle.std.specs.Prelude.{◌≡◌, ◌≤◌, ◌∷◌, [], ◌++◌};
ghost use Rattle.std.specs.Prelude.{Some, None, IfOk, IfSome, OnOk, OnErr, is_err, map, length};
ghost use Rattle.transport.specs.Feeds.{coming_of, left_of, sent_by, sent_of};
ghost use Rattle.transport.specs.Messages.{is_first_long, is_long, message_bytes};
ghost use Rattle.transport.specs.Told.{IsNoneLeft, told_and, told_front};

use crate::pipe::Pipe;
use hmr_types::limits::MESSAGE_BYTES;
use std::alloc::{AllocError, Global};
use std::collections::VecDeque;
use std::sync::{Arc, Wait};

/// Messages that are there from the start, and those that were sent.
#[derive(Drop)]
pub(crate) struct Lists {
    coming: VecDeque<Vec<u8>>,
    sent: Vec<Vec<u8>>,
}

/// Where the messages of an end come from, and where they go.
#[derive(Drop)]
pub(crate) enum Feed {
    /// Pipes to and from another end: what comes, and what goes.
    Pipes(Arc<Pipe, Global>, Arc<Pipe, Global>),
    /// Lists that are told.
    Told(Lists),
}

/// The next message is longer than a message may be.
#[derive(Clone, Copy, Debug, PartialEq, Eq)]
pub(crate) struct TooLong;

impl Lists {
    fn take(&mut self) -> Result<Option<Vec<u8>>, TooLong>
        ensures bound { IfOk result (λ got. IfSome got (λ v. length v.items ≤ message_bytes)) }
        ensures some { IfOk result
            (λ got. IfSome got (λ v. coming_of self.old ≡ v.items ∷ coming_of self.new)) }
        ensures none { IfOk result
            (λ got. got ≡ None → (coming_of self.old ≡ []) × (coming_of self.new ≡ [])) }
        ensures untaken { OnErr result (coming_of self.new ≡ coming_of self.old) }
        ensures test { is_err result ≡ is_first_long (Some (coming_of self.old)) }
        ensures sent { sent_by self.new ≡ sent_by self.old }
    {
        match self.coming.front() {
            Some(message) if message.len() > MESSAGE_BYTES => Err(TooLong),
            _ => Ok(self.coming.pop_front()),
        }
    }
}

impl Feed {
    /// The lists of an end that is to receive these messages.
    pub(crate) fn told(alloc: Global, coming: VecDeque<Vec<u8>>) -> Self
        ensures left { left_of result ≡ Some (map (λ message. message.items) coming.items) }
        ensures sent { sent_of result ≡ Some [] }
    {
        Feed::Told(Lists {
            coming,
            sent: Vec::new(alloc),
        })
    }

    pub(crate) fn put<R: Wait>(&mut self, rt: &R, message: Vec<u8>) -> Result<(), AllocError>
        requires short { length message.items ≤ message_bytes }
        ensures left { left_of self.new ≡ left_of self.old }
        ensures sent { OnOk result (sent_of self.new ≡ told_and (sent_of self.old) (message.items ∷ [])) }
        ensures unsent { OnErr result (sent_of self.new ≡ sent_of self.old) }
    {
        match self {
            Feed::Pipes(_, outgoing) => outgoing.put(rt, message),
            Feed::Told(told) => Ok(told.sent.push(message)?),
        }
    }

    pub(crate) fn take<R: Wait>(&mut self, rt: &R) -> Result<Option<Vec<u8>>, TooLong>
        ensures bound { IfOk result (λ got. IfSome got (λ v. length v.items ≤ message_bytes)) }
        ensures some { IfOk result
            (λ got. IfSome got (λ v. left_of self.old ≡ told_front (v.items ∷ []) (left_of self.new))) }
        ensures none { IfOk result
            (λ got. got ≡ None → IsNoneLeft (left_of self.old) × (left_of self.new ≡ left_of self.old)) }
        ensures untaken { OnErr result (left_of self.new ≡ left_of self.old) }
        ensures test { is_err result ≡ is_first_long (left_of self.old) }
        ensures sent { sent_of self.new ≡ sent_of self.old }
    {
        match self {
            Feed::Pipes(incoming, _) => Ok(incoming.take(rt)),
            Feed::Told(told) => told.take(),
        }
    }

    pub(crate) fn shut<R: Wait>(&mut self, rt: &R)
        ensures left { left_of self.new ≡ left_of self.old }
        ensures sent { sent_of self.new ≡ sent_of self.old }
    {
        if let Feed::Pipes(incoming, outgoing) = self {
            incoming.shut(rt);
            outgoing.shut(rt);
        }
    }

    /// The messages that were sent, where they are told; else none.
    pub(crate) fn sent(&self) -> &[Vec<u8>]
        ensures { IfSome (sent_of self.now)
            (λ messages. map (λ message. message.items) result.now ≡ messages) }
    {
        match self {
            Feed::Pipes(_, _) => &[],
            Feed::Told(told) => &told.sent,
        }
    }
}
