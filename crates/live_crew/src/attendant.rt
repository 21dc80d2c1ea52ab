// What serves the visitors of one door.
ghost use Rattle.std.specs.Prelude.{◌≡◌, ◌≤◌, ◌||◌, Some, false, is_some, not, refl, true};
ghost use Rattle.std.specs.Option.{ForSome};
ghost use Rattle.std.proofs.Common.{◌∙◌};
ghost use Rattle.std.specs.Arc.{arc_value};
ghost use Rattle.transport.specs.declared.link.Phase.{Phase};
ghost use Rattle.hmr_hub.specs.Passes.{IsPassOf};

use doors::{Attendant, Visitor};
use hmr_hub::{Hub, Pass};
use live_context::Shared;
use live_desk::LiveDesk;
use live_heads::answer_heads;
use live_site::Site;
use sessions::serve_session;
use std::alloc::{AllocError, Global};
use std::sync::{Arc, Wait};
use transport::Link;

/// What serves the visitors of one door: a hub, and the one pass with which all their sessions are held. It
/// counts its visits, and has whether the hub answered that its transcript is full.
#[derive(Drop)]
pub struct HubAttendant<R: Drop, S: Drop> {
    rt: R,
    hub: Arc<Hub, Global>,
    // None only while a session has it.
    pass: Option<Pass>,
    shared: Shared<S>,
    visits: u64,
    full: bool,
    ghost of_hub: { ForSome pass (λ p. IsPassOf (arc_value hub) p) },
}

impl<R: Drop, S: Drop> HubAttendant<R, S> {
    /// An attendant that had no visits.
    pub fn new(rt: R, hub: Arc<Hub, Global>, pass: Pass, shared: Shared<S>) -> Self
        requires of { IsPassOf (arc_value hub) pass }
        ensures hub { result.hub ≡ hub }
        ensures pass { result.pass ≡ Some pass }
        ensures visits { result.visits ≡ 0 }
        ensures full { result.full ≡ false }
    {
        HubAttendant {
            rt,
            hub,
            pass: Some(pass),
            shared,
            visits: 0,
            full: false,
        }
    }

    /// Whether the hub answered that its transcript is full.
    pub fn is_full(&self) -> bool
        ensures { result ≡ self.now.full }
    {
        self.full
    }

    /// The pass of its sessions.
    pub fn into_pass(self) -> Pass
        requires there { is_some self.pass ≡ true }
        ensures pass { self.pass ≡ Some result }
        ensures of { IsPassOf (arc_value self.hub) result }
    {
        let HubAttendant {
            rt: _,
            hub: _,
            pass,
            shared: _,
            visits: _,
            full: _,
        } = self;
        match pass {
            Some(pass) => pass,
            None => unreachable!(),
        }
    }
}

impl<R: Wait + Copy + Drop, S: Site + Drop> HubAttendant<R, S> {
    ghost use Rattle.live_crew.specs.Attendants.{SameAttendant, is_done};

    // Holds the session of a visitor who asked for one.
    #[tactic(auto, using(crate::proofs::Attendants::going_has, crate::proofs::Attendants::same_self))]
    fn hold_session<W: Wait, E: Visitor>(&mut self, rt: &W, alloc: Global, end: &mut E)
        requires going { is_done self.old ≡ false }
        requires fresh { E.phase end.old ≡ Phase.Fresh }
        ensures shut { E.phase end.new ≡ Phase.Shut }
        ensures later { E.faults end.old ≤ E.faults end.new }
        ensures visits { self.new.visits ≡ self.old.visits }
        ensures stays { SameAttendant self.old self.new }
    {
        let Ok((hub, shared)) = self.parts() else {
            end.close();
            return;
        };
        let Some(pass) = self.pass.take() else {
            unreachable!()
        };
        shared.bell.ring();
        let mut desk = LiveDesk::new(self.rt, alloc, hub, pass, shared);
        let _ended = serve_session(rt, alloc, end, &mut desk);
        desk.leave();
        self.keep(desk);
    }

    // The hub and what is shared, once more.
    fn parts(&self) -> Result<(Arc<Hub, Global>, Shared<S>), AllocError>
        ensures hub { Rattle.std.specs.Prelude.IfOk result (λ parts. arc_value parts.0 ≡ arc_value self.now.hub) }
    {
        Ok((Arc::try_clone(&self.hub)?, self.shared.again()?))
    }

    // Takes back the pass of a session that ended.
    fn keep(&mut self, desk: LiveDesk<R, S>)
        requires hub { arc_value desk.desk.hub ≡ arc_value self.old.hub }
        ensures hub { self.new.hub ≡ self.old.hub }
        ensures pass { self.new.pass ≡ Some desk.desk.pass }
        ensures visits { self.new.visits ≡ self.old.visits }
    {
        self.full = desk.is_full();
        self.shared.bell.note_full(self.full);
        self.pass = Some(desk.into_pass());
    }
}

impl<R: Wait + Copy + Drop, S: Site + Drop> Attendant for HubAttendant<R, S> {
    ghost use Rattle.live_crew.specs.Attendants.{SameAttendant, is_done};

    ghost is_done = { is_done };

    ghost visits = { λ a. a.visits };

    ghost stays = { SameAttendant };

    #[tactic(auto, using(crate::proofs::Attendants::same_counted, crate::proofs::Attendants::only_counted))]
    fn attend<W: Wait, E: Visitor>(&mut self, rt: &W, alloc: Global, end: &mut E) {
        self.visits = self.visits.saturating_add(1);
        self.shared.bell.wait_till_open(rt);
        if answer_heads(rt, alloc, end, &self.shared) {
            self.hold_session(rt, alloc, end);
            return;
        }
        end.close();
    }

    fn is_done(&self) -> bool {
        self.full || self.pass.is_none()
    }

    ghost same = { λ a. record { hub = refl; number = refl; held = λ first so_far. so_far } };

    ghost then = { λ a next last p q. record {
      hub = q.hub ∙ p.hub;
      number = q.number ∙ p.number;
      held = λ first so_far. q.held first (p.held first so_far);
    } };
}
