// A session's desk: it makes each message of its client one event of the hub.
ghost use Rattle.std.specs.Prelude.{◌≡◌, ◌≤◌, IfOk, None, false, true, ◌||◌, ℕ, refl};
ghost use Rattle.std.proofs.Common.{◌∙◌};
ghost use Rattle.std.specs.Arc.{arc_value};
ghost use Rattle.hmr_types.specs.declared.limits.TheConstants.{MESSAGE_BYTES};
ghost use Rattle.update_msgs.specs.Desk.{bytes_of};
ghost use Rattle.update_msgs.specs.Writable.{IsFormat, IsWritable};
ghost use Rattle.hmr_hub.specs.Passes.{IsPassOf, seen_of};
ghost use Rattle.hmr_hub.specs.Fullness.{IsNearlyFull};
ghost use Rattle.session_desks.specs.Fullness.{is_nearly_full};

use crate::telling::{lacks_memory, tell};
use client_exchange::{client_after, event_of, is_bye, is_hello, message_in, refusal_message};
use core_model::Refusal;
use events_and_replies::Event;
use hmr_hub::{Hub, Pass};
use hmr_types::ClientId;
use std::alloc::Global;
use std::sync::{Arc, Wait};
use transcripts::has_version;
use update_msgs::{ClientMsg, Desk, HubStop, ServerMsg};

/// The desk of one session: a hub, and a pass of it. It has the number of its client, 0 for none, whether
/// the hub answered it that the transcript is full, and whether there was no memory for telling the hub that
/// its client is gone. It holds a handle by which it may wait.
#[derive(Drop)]
pub struct HubDesk<R: Drop> {
    rt: R,
    hub: Arc<Hub, Global>,
    pass: Pass,
    client: ClientId,
    full: bool,
    no_memory: bool,
    ghost of_hub: { IsPassOf (arc_value hub) pass },
    ghost near_full: { full ≡ true → is_nearly_full (seen_of pass) ≡ true },
}

impl<R: Drop> HubDesk<R> {
    /// A desk without a client.
    pub fn new(rt: R, hub: Arc<Hub, Global>, pass: Pass) -> Self
        requires of { IsPassOf (arc_value hub) pass }
        ensures hub { result.hub ≡ hub }
        ensures pass { result.pass ≡ pass }
        ensures client { result.client ≡ 0 }
        ensures full { result.full ≡ false }
        ensures no_memory { result.no_memory ≡ false }
    {
        HubDesk {
            rt,
            hub,
            pass,
            client: 0,
            full: false,
            no_memory: false,
        }
    }

    /// The number of the desk's client, 0 for none.
    pub fn client(&self) -> ClientId
        ensures { result ≡ self.now.client }
    {
        self.client
    }

    /// Whether the hub answered that its transcript is full.
    pub fn is_full(&self) -> bool
        ensures { result ≡ self.now.full }
    {
        self.full
    }

    /// Whether there was no memory for telling the hub that the client is gone.
    pub fn wants_memory(&self) -> bool
        ensures { result ≡ self.now.no_memory }
    {
        self.no_memory
    }

    /// The pass of the desk.
    pub fn into_pass(self) -> Pass
        ensures pass { result ≡ self.pass }
        ensures near_full { self.full ≡ true → IsNearlyFull (seen_of result) }
    {
        let HubDesk {
            rt: _,
            hub: _,
            pass,
            client: _,
            full: _,
            no_memory: _,
        } = self;
        pass
    }
}

impl<R: Wait + Drop> HubDesk<R> {
    ghost use Rattle.session_desks.specs.Desks.{Dealt, Left};

    /// Answers a message whose names and texts have at most 16,777,216 bytes together. It waits.
    ///
    /// A hello on a desk with a client is refused as out of turn, and an invalidation at a version that no
    /// edit can have as ignored; neither changes anything. Every other message is one event of the hub, and
    /// its reply is the answer; a connected client is then the desk's, and after a bye the desk has none.
    /// [`HubStop::TranscriptFull`] and [`HubStop::NoMemory`] come exactly where the hub answers so, and only
    /// the first changes the desk: it is full from then on.
    pub fn deal(&mut self, msg: ClientMsg) -> Result<ServerMsg, HubStop>
        requires size { bytes_of msg ≤ MESSAGE_BYTES }
        ensures dealt { Dealt msg self.old self.new result }
        ensures written { IfOk result (λ m. (format : ℕ) → IsFormat format → IsWritable format m) }
    {
        if self.client != 0 && is_hello(&msg) {
            return Ok(refusal_message(Refusal::OutOfTurn));
        }
        let bye = is_bye(&msg);
        let event = event_of(self.client, msg);
        if !has_version(&event) {
            return Ok(refusal_message(Refusal::Ignored));
        }
        let reply = tell(&self.rt, &self.hub, &mut self.pass, &mut self.full, event)?;
        let Some(answer) = message_in(reply) else {
            unreachable!()
        };
        self.client = client_after(self.client, bye, &answer);
        Ok(answer)
    }

    /// Tells the hub that the desk's client is gone, where there is one, for a session that ended otherwise
    /// than by an answered bye. Where the transcript has no place for that, the desk is full from then on,
    /// and where there is no memory, the desk says so. It waits.
    pub fn leave(&mut self)
        ensures left { Left self.old self.new }
    {
        if self.client == 0 {
            return;
        }
        let event = Event::Disconnect(self.client);
        let told = tell(&self.rt, &self.hub, &mut self.pass, &mut self.full, event);
        self.note(lacks_memory(&told));
    }

    // Notes that there was no memory.
    fn note(&mut self, no_memory: bool)
        ensures hub { self.new.hub ≡ self.old.hub }
        ensures pass { self.new.pass ≡ self.old.pass }
        ensures client { self.new.client ≡ self.old.client }
        ensures full { self.new.full ≡ self.old.full }
        ensures noted { self.new.no_memory ≡ (self.old.no_memory || no_memory) }
    {
        self.no_memory = self.no_memory || no_memory;
    }
}

impl<R: Wait + Drop> Desk for HubDesk<R> {
    ghost use Rattle.session_desks.specs.Desks.{SameDesk};

    ghost full = { λ desk. desk.full };

    ghost told = { λ desk. None };

    ghost stays = { SameDesk };

    fn answer(&mut self, msg: ClientMsg) -> Result<ServerMsg, HubStop> {
        self.deal(msg)
    }

    ghost same = { λ desk. record { hub = refl; number = refl } };

    ghost then = { λ desk next last p q. record { hub = q.hub ∙ p.hub; number = q.number ∙ p.number } };
}
