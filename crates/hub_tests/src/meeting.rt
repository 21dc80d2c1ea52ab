// Two threads with a pass each tell a hub that clients come and go, and their passes are joined again.
ghost use Rattle.std.specs.Prelude.{◌≡◌, ◌+◌, [], IfSome, IsSome, true};
ghost use Rattle.events_and_replies.specs.Said.{event_of};
ghost use Rattle.hmr_hub.specs.Passes.{IsPassOf, number_of, seen_of};
ghost use Rattle.transcripts.specs.Transcripts.{HasVersion, may_make};
ghost use Rattle.hub_tests.specs.Counts.{made_by};

use events_and_replies::{Event, Reply};
use hmr_hub::{Hub, Pass};
use std::alloc::Global;
use std::sync::Wait;
use std::thread;
use std::thread::Threads;
use update_msgs::ServerMsg;

/// The reply to an event, if there is one; the pass has then seen one entry more.
pub fn tell<R: Wait>(rt: &R, hub: &Hub, pass: &mut Pass, event: Event) -> Option<Reply>
    requires pass { IsPassOf hub.now pass.old }
    requires may { may_make (number_of pass.old) (event_of event) ≡ true }
    requires version { HasVersion (event_of event) }
    ensures pass { IsPassOf hub.now pass.new }
    ensures made { IsSome result → made_by pass.new ≡ made_by pass.old + 1 }
{
    match hub.call(rt, pass, event) {
        Ok(reply) => Some(reply),
        Err(_) => None,
    }
}

/// A client comes and goes; whether both were answered so.
pub fn visit<R: Wait>(rt: &R, alloc: Global, hub: &Hub, pass: &mut Pass) -> bool
    requires { IsPassOf hub.now pass.old }
    ensures pass { IsPassOf hub.now pass.new }
    ensures made { result ≡ true → made_by pass.new ≡ made_by pass.old + 2 }
{
    let Some(Reply::To(ServerMsg::Connected { client, roots: _ })) = tell(
        rt,
        hub,
        pass,
        Event::Connect(Vec::new(alloc)),
    ) else {
        return false;
    };
    tell(rt, hub, pass, Event::Disconnect(client)).is_some()
}

/// The pass has seen its hundred entries of fifty clients that came and went, where all were answered.
pub fn hundred<R: Wait>(rt: &R, alloc: Global, hub: &Hub, mut pass: Pass) -> Option<Pass>
    requires pass { IsPassOf hub.now pass }
    requires first { seen_of pass ≡ [] }
    ensures pass { IfSome result (λ p. IsPassOf hub.now p) }
    ensures made { IfSome result (λ p. made_by p ≡ 100) }
{
    for round in 0..50_u32 {
        if !visit(rt, alloc, hub, &mut pass) {
            return None;
        }
    }
    Some(pass)
}

/// Two threads with a hundred entries each; the pass that is left has seen two hundred.
pub fn two_hundred<R: Threads + Wait + Sync>(
    rt: &R,
    alloc: Global,
    hub: &Hub,
    mut pass: Pass,
) -> Option<Pass>
    requires pass { IsPassOf hub.now pass }
    requires first { seen_of pass ≡ [] }
    ensures pass { IfSome result (λ p. IsPassOf hub.now p) }
    ensures made { IfSome result (λ p. made_by p ≡ 200) }
{
    let half = hub.split(rt, &mut pass).ok()?;
    let (one, other) = thread::join(
        rt,
        || hundred(rt, alloc, hub, pass),
        || hundred(rt, alloc, hub, half),
    );
    let mut one = one?;
    hub.join(&mut one, other?);
    Some(one)
}
