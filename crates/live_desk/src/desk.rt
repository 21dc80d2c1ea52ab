// The desk of a page: asks wait, and what is shown of the page is told.
ghost use Rattle.std.specs.Prelude.{◌≡◌, ◌≤◌, ◌++◌, ◌∷◌, [], IfOk, Some, false, refl, ℕ, true};
ghost use Rattle.std.proofs.Common.{◌∙◌};
ghost use Rattle.std.specs.Arc.{arc_value};
ghost use Rattle.hmr_types.specs.declared.limits.TheConstants.{MESSAGE_BYTES};
ghost use Rattle.update_msgs.specs.Desk.{bytes_of};
ghost use Rattle.update_msgs.specs.Writable.{IsFormat, IsWritable};
ghost use Rattle.hmr_hub.specs.Passes.{IsPassOf, seen_of};
ghost use Rattle.hmr_hub.specs.Fullness.{IsNearlyFull};

use crate::dealings::Dealings;
use crate::exchange::{is_ask, is_change, is_idle};
use hmr_hub::{Hub, Pass};
use hmr_types::ClientId;
use live_context::Shared;
use live_lines::{Asked, ImportedName, News, PageLog, PageNews};
use live_site::Site;
use session_desks::HubDesk;
use std::alloc::Global;
use std::snapshot::Snapshot;
use std::sync::{Arc, Wait};
use update_msgs::{ClientMsg, Desk, HubStop, ServerMsg};

/// The desk of one page: a desk of the hub, and what is shared with other threads, of which it uses the bell
/// that asks wait at, where news go, and the site that says which names a text imports. It has what is known
/// of the page. What it has dealt with only clauses read.
#[derive(Drop)]
pub struct LiveDesk<R: Drop, S: Drop> {
    rt: R,
    alloc: Global,
    desk: HubDesk<R>,
    shared: Shared<S>,
    log: PageLog,
    dealings: Snapshot<Dealings>,
}

impl<R: Copy + Drop, S: Drop> LiveDesk<R, S> {
    ghost use Rattle.live_desk.specs.Desks.{told_by};

    /// A desk without a client.
    pub fn new(rt: R, alloc: Global, hub: Arc<Hub, Global>, pass: Pass, shared: Shared<S>) -> Self
        requires of { IsPassOf (arc_value hub) pass }
        ensures hub { result.desk.hub ≡ hub }
        ensures pass { result.desk.pass ≡ pass }
        ensures client { result.desk.client ≡ 0 }
        ensures full { result.desk.full ≡ false }
        ensures told { told_by result ≡ [] }
    {
        LiveDesk {
            rt,
            alloc,
            desk: HubDesk::new(rt, hub, pass),
            shared,
            log: PageLog::new(alloc),
            dealings: Snapshot::of(&Dealings::Nothing),
        }
    }
}

impl<R: Drop, S: Drop> LiveDesk<R, S> {
    /// Whether the hub answered that its transcript is full.
    pub fn is_full(&self) -> bool
        ensures { result ≡ self.now.desk.full }
    {
        self.desk.is_full()
    }

    /// The pass of the desk.
    pub fn into_pass(self) -> Pass
        ensures pass { result ≡ self.desk.pass }
        ensures of { IsPassOf (arc_value self.desk.hub) result }
        ensures near_full { self.desk.full ≡ true → IsNearlyFull (seen_of result) }
    {
        let LiveDesk {
            rt: _,
            alloc: _,
            desk,
            shared: _,
            log: _,
            dealings: _,
        } = self;
        desk.into_pass()
    }
}

impl<R: Wait + Drop, S: Site + Drop> LiveDesk<R, S> {
    ghost use Rattle.session_desks.specs.Desks.{Left, SameDesk};
    ghost use Rattle.live_desk.specs.Waiting.{Answered, Asked as IsAsked};

    /// Answers a message whose names and texts have at most 16,777,216 bytes together, and tells what the
    /// exchange shows of the page. It waits.
    ///
    /// An ask to which there is something to say is dealt once. One to which there is nothing waits until
    /// the bell rings, or for 25 seconds, and is dealt again. Every other message is dealt once; the bell is
    /// rung where others may then have something to do. Refusals are those of the hub's desk.
    pub fn deal(&mut self, msg: ClientMsg) -> Result<ServerMsg, HubStop>
        requires size { bytes_of msg ≤ MESSAGE_BYTES }
        ensures answered { Answered msg self.old.desk self.new.desk result }
        ensures untold { self.new.dealings ≡ self.old.dealings }
        ensures written { IfOk result (λ m. (format : ℕ) → IsFormat format → IsWritable format m) }
    {
        let asked = Asked::of(&msg);
        let answer = self.answer_to(msg)?;
        if let Ok(asked) = asked {
            self.tell(asked, &answer);
        }
        Ok(answer)
    }

    /// Tells the hub that the desk's client is gone, where there is one, for a session that ended otherwise
    /// than by an answered bye, and tells it as news. It waits.
    #[tactic(auto, using(crate::proofs::Waiting::left_same))]
    pub fn leave(&mut self)
        ensures left { Left self.old.desk self.new.desk }
        ensures stays { SameDesk self.old.desk self.new.desk }
    {
        let client = self.desk.client();
        self.desk.leave();
        self.tell_gone(client);
    }

    // Tells that the page of this client is gone, where there is one.
    fn tell_gone(&self, client: ClientId) {
        if client != 0 {
            self.tell_of(client, PageNews::Closed);
            self.shared.bell.ring();
        }
    }

    // Answers a message.
    #[tactic(auto, using(crate::proofs::Waiting::answered_ask, crate::proofs::Waiting::answered_once))]
    fn answer_to(&mut self, msg: ClientMsg) -> Result<ServerMsg, HubStop>
        requires size { bytes_of msg ≤ MESSAGE_BYTES }
        ensures answered { Answered msg self.old.desk self.new.desk result }
        ensures untold { self.new.dealings ≡ self.old.dealings }
        ensures written { IfOk result (λ m. (format : ℕ) → IsFormat format → IsWritable format m) }
    {
        if is_ask(&msg) {
            return self.ask();
        }
        let rings = is_change(&msg);
        let answer = self.desk.deal(msg);
        self.ring_if(rings);
        answer
    }

    // Rings, where others may have something to do.
    fn ring_if(&self, rings: bool) {
        if rings {
            self.shared.bell.ring();
        }
    }

    // Answers an ask at once, where there is something to say, and else when it was waited for.
    #[tactic(auto, using(crate::proofs::Waiting::asked_once, crate::proofs::Waiting::asked_again))]
    fn ask(&mut self) -> Result<ServerMsg, HubStop>
        ensures asked { IsAsked self.old.desk self.new.desk result }
        ensures untold { self.new.dealings ≡ self.old.dealings }
        ensures written { IfOk result (λ m. (format : ℕ) → IsFormat format → IsWritable format m) }
    {
        let seen = self.shared.bell.count();
        let first = self.desk.deal(ClientMsg::Ask)?;
        if !is_idle(&first) {
            return Ok(first);
        }
        self.shared.bell.wait(&self.rt, seen);
        self.desk.deal(ClientMsg::Ask)
    }

    // Tells what an exchange shows of the page. Where memory runs out, it isn't told.
    fn tell(&mut self, asked: Asked, answer: &ServerMsg)
        ensures desk { self.new.desk ≡ self.old.desk }
        ensures untold { self.new.dealings ≡ self.old.dealings }
    {
        let names = self.names_in(answer);
        let before = self.log.client();
        let news = self.log.answered(self.alloc, asked, answer, names);
        let now = self.log.client();
        if let Ok(Some(news)) = news {
            self.tell_of(if now == 0 { before } else { now }, news);
        }
    }

    // What the text of an answer imports, as the site has it: nothing where there is no text, and where
    // memory runs out.
    fn names_in(&self, answer: &ServerMsg) -> Vec<ImportedName> {
        let ServerMsg::Text {
            path,
            version,
            text: _,
        } = answer
        else {
            return Vec::new(self.alloc);
        };
        let found = self
            .shared
            .site
            .imported_names(&self.rt, self.alloc, path, *version);
        match found {
            Ok(names) => names,
            Err(_) => Vec::new(self.alloc),
        }
    }

    // Tells something of the page of this client.
    fn tell_of(&self, client: ClientId, news: PageNews) {
        self.shared.news.tell(&self.rt, News::Page { client, news });
    }
}

impl<R: Wait + Drop, S: Site + Drop> LiveDesk<R, S> {
    ghost use Rattle.live_desk.specs.Desks.{told_by};

    // Notes that a message was answered. It costs nothing.
    fn note(&mut self, msg: Snapshot<ClientMsg>, answer: &ServerMsg)
        ensures desk { self.new.desk ≡ self.old.desk }
        ensures told { told_by self.new ≡ told_by self.old ++ (msg.value, answer.now) ∷ [] }
    {
        let before = std::mem::replace(&mut self.dealings, Snapshot::of(&Dealings::Nothing));
        let now = Dealings::More(before, msg, Snapshot::of(answer));
        self.dealings = Snapshot::of(&now);
    }
}

impl<R: Wait + Drop, S: Site + Drop> Desk for LiveDesk<R, S> {
    ghost use Rattle.live_desk.specs.Desks.{GoesOn, is_full, told_by};

    ghost full = { is_full };

    ghost told = { λ desk. Some (told_by desk) };

    ghost stays = { GoesOn };

    #[tactic(auto, using(crate::proofs::Sessions::answered_on, crate::proofs::Sessions::unanswered_on, crate::proofs::Waiting::answered_full))]
    fn answer(&mut self, msg: ClientMsg) -> Result<ServerMsg, HubStop> {
        let asked = Snapshot::of(&msg);
        let answer = self.deal(msg)?;
        self.note(asked, &answer);
        Ok(answer)
    }

    ghost same = { λ desk. record { hub = refl; number = refl; dealt = λ first told so_far. so_far } };

    ghost then = { λ desk next last p q. record {
      hub = q.hub ∙ p.hub;
      number = q.number ∙ p.number;
      dealt = λ first told so_far. q.dealt first told (p.dealt first told so_far);
    } };
}
