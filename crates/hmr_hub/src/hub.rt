// What is done with a hub: it is made, called in turn by passes, and passes are split and joined.
ghost use Rattle.std.specs.Prelude.{◌≡◌, ◌<◌, ◌≤◌, ◌↔◌, ◌+◌, [], IfOk, IsErrOf, false, length, map, true};
ghost use Rattle.hmr_types.specs.declared.limits.TheConstants.{ROOTS};
ghost use Rattle.core_model.specs.Roots.{AreRoots, are_distinct};
ghost use Rattle.core_model.specs.Transcript.{events_of};
ghost use Rattle.server_core.specs.Kept.{StandsFor};
ghost use Rattle.events_and_replies.specs.Said.{event_of};
ghost use Rattle.server_core.specs.declared.new_fault.NewFault.TheVariants.{DuplicateRoot, NoRoots};
ghost use Rattle.server_core.specs.declared.new_fault.NewFault.TheVariants.{TooManyRoots};
ghost use Rattle.hmr_hub.specs.Calls.{Called, IsFirst, IsHalf, Joined, Looked, SameKnower, SameSeen};
ghost use Rattle.hmr_hub.specs.Outcomes.{IsEventsTold, IsOutstandingTold, IsReported, IsTold};
ghost use Rattle.hmr_hub.specs.Passes.{HasTranscript, IsPassOf, all_given, given_of, number_of};
ghost use Rattle.hmr_hub.specs.Passes.{roots_of, seen_of};
ghost use Rattle.hmr_hub.specs.Reports.{report_of};
ghost use Rattle.transcripts.specs.Transcripts.{HasVersion, is_outstanding, may_make};
ghost use Rattle.hmr_hub.specs.declared.hub_reply.HubReply.TheVariants as hub_reply;
ghost use Rattle.hmr_hub.specs.declared.pass.HubFault.TheVariants.{Roots};

use crate::hub_reply::HubReply;
use crate::pass::{Hub, HubFault, Pass};
use crate::question::{Kind, Question};
use crate::recorded_core::RecordedCore;
use crate::report_line::ReportLine;
use events_and_replies::{Event, Reply};
use hmr_types::ModName;
use server_core::{Core, NewFault};
use std::alloc::{AllocError, Global};
use std::sync::Wait;
use transcripts::note_formed;
use turn_lock::{SplitFault, TurnLock};
use update_msgs::HubStop;

impl Pass {
    /// The number of the pass: 0 of the one that [`Hub::new`] gives, from 1 of those split off, each given
    /// once.
    pub fn number(&self) -> u64
        ensures { result ≡ number_of self.now }
    {
        self.pass.number()
    }
}

impl Hub {
    /// The hub of a server with these roots, before any event, and its first pass, which is alone until it
    /// is split. [`NewFault::NoRoots`] comes exactly where there are no roots, [`NewFault::TooManyRoots`]
    /// where there are more than 16, [`NewFault::DuplicateRoot`] where there are fewer and two are equal;
    /// else it fails only where memory runs out.
    pub fn new(alloc: Global, roots: Vec<ModName>) -> Result<(Hub, Pass), HubFault>
        ensures pass { IfOk result (λ made. IsPassOf made.0 made.1) }
        ensures first { IfOk result (λ made. IsFirst roots.items made.1) }
        ensures transcript { IfOk result (λ made. HasTranscript made.1) }
        ensures none { IsErrOf result (Roots NoRoots) ↔ (roots.items ≡ []) }
        ensures many { IsErrOf result (Roots TooManyRoots) ↔ (ROOTS < length roots.items) }
        ensures twice { IsErrOf result (Roots DuplicateRoot) ↔
            (length roots.items ≤ ROOTS) × (are_distinct roots.items ≡ false) }
    {
        match Core::new(alloc, roots) {
            Ok(core) => match hub_of(alloc, core) {
                Ok(made) => Ok(made),
                Err(_) => Err(HubFault::NoMemory),
            },
            Err(fault) => Err(HubFault::Roots(fault)),
        }
    }

    /// Tells the core an event, and answers its reply; an edit is told by the pass with number 0 alone, and
    /// the version of a result or of an invalidation is one that an edit can have, as [`crate::has_version`]
    /// tells. It waits for the turn. The transcript that the call leaves begins with all that the pass had
    /// seen; past that it has no entry under a number that the pass knows, but this one at its end, where it
    /// was answered. A pass that is alone has seen all that there is before. The reply is the core's in the
    /// state that the transcript before the event makes, and can be written. [`HubStop::TranscriptFull`]
    /// comes exactly where the transcript has 1,000,000 entries or would have more than 268,435,456 bytes:
    /// an entry counts 64 and those of the names and texts in its event. After a [`HubStop`] core and
    /// transcript are as before.
    pub fn call<R: Wait>(&self, rt: &R, pass: &mut Pass, event: Event) -> Result<Reply, HubStop>
        requires pass { IsPassOf self.now pass.old }
        requires may { may_make (number_of pass.old) (event_of event) ≡ true }
        requires version { HasVersion (event_of event) }
        ensures pass { IsPassOf self.now pass.new }
        ensures same { SameKnower pass.old pass.new }
        ensures called { Called (event_of event) result pass.old pass.new }
        ensures transcript { HasTranscript pass.new }
    {
        note_formed(&event);
        let question = Question {
            kind: Kind::Tell(event),
        };
        told(self.lock.call(rt, &mut pass.pass, question))
    }

    /// Splits a pass off another: it has seen as much, and has a number of its own, which nobody had before:
    /// it is above each number that the pass, or one that was joined into it, knows or gave in an earlier
    /// split, and no entry that was seen is under it. [`SplitFault::Spent`] comes exactly where all numbers
    /// were given; the pass shows that then, and is answered so again. It waits only while other splits come
    /// between.
    pub fn split<R: Wait>(&self, rt: &R, pass: &mut Pass) -> Result<Pass, SplitFault>
        requires { IsPassOf self.now pass.old }
        ensures pass { IsPassOf self.now pass.new }
        ensures same { SameSeen pass.old pass.new }
        ensures half { IfOk result (IsHalf pass.old) }
        ensures given { IfOk result (λ half. given_of pass.new ≡ number_of half + 1) }
        ensures transcript { HasTranscript pass.old → IfOk result HasTranscript }
        ensures spent { IsErrOf result SplitFault.Spent ↔ (all_given pass.new ≡ true) }
        ensures again { all_given pass.old ≡ true → IsErrOf result SplitFault.Spent }
    {
        let half = self.lock.split(rt, &mut pass.pass)?;
        Ok(Pass { pass: half })
    }

    /// Joins another pass of this hub into a pass. The transcript that one of them has seen begins the
    /// other's; the longer stays. The pass that remains knows the numbers of both, and past what either had
    /// seen there is no entry under a number which that one knew: so it has all their entries, each once. A
    /// pass that is split off it later has a number above all that either knew or gave. It doesn't wait.
    pub fn join(&self, into: &mut Pass, other: Pass)
        requires into { IsPassOf self.now into.old }
        requires other { IsPassOf self.now other }
        ensures pass { IsPassOf self.now into.new }
        ensures joined { Joined into.old other into.new }
        ensures transcript { HasTranscript into.old → HasTranscript other → HasTranscript into.new }
    {
        self.lock.join(&mut into.pass, other.pass);
    }

    /// Whether the name has a source whose result hasn't come, after all that the pass has then seen. It
    /// waits for the turn and records nothing.
    pub fn outstanding<R: Wait>(&self, rt: &R, pass: &mut Pass, name: ModName) -> bool
        requires { IsPassOf self.now pass.old }
        ensures pass { IsPassOf self.now pass.new }
        ensures same { SameKnower pass.old pass.new }
        ensures looked { Looked pass.old pass.new }
        ensures transcript { HasTranscript pass.new }
        ensures told { result ≡ is_outstanding (roots_of pass.old) (seen_of pass.new) name }
    {
        let question = Question {
            kind: Kind::Outstanding(name),
        };
        is_outstanding(self.lock.call(rt, &mut pass.pass, question))
    }

    /// The report of all that the pass has then seen: how many entries there are, the fresh load of the
    /// server's roots, and by number the page of each client that came, as it is or was when it went. It
    /// waits for the turn and records nothing. It fails only where memory runs out.
    pub fn report<R: Wait>(&self, rt: &R, pass: &mut Pass) -> Result<Vec<ReportLine>, AllocError>
        requires { IsPassOf self.now pass.old }
        ensures pass { IsPassOf self.now pass.new }
        ensures same { SameKnower pass.old pass.new }
        ensures looked { Looked pass.old pass.new }
        ensures transcript { HasTranscript pass.new }
        ensures told { IfOk result
            (λ lines. lines.items ≡ report_of (roots_of pass.old) (seen_of pass.new)) }
    {
        let question = Question { kind: Kind::Report };
        reported(self.lock.call(rt, &mut pass.pass, question))
    }

    /// The events that the hub was told, oldest first, of all that the pass has then seen. Results carry
    /// their outcome again: each text is transformed anew. It waits for the turn and records nothing. Only
    /// out of memory refuses. It takes time and memory in proportion to the names and texts of all entries.
    pub fn events<R: Wait>(&self, rt: &R, pass: &mut Pass) -> Result<Vec<Event>, AllocError>
        requires { IsPassOf self.now pass.old }
        ensures pass { IsPassOf self.now pass.new }
        ensures same { SameKnower pass.old pass.new }
        ensures looked { Looked pass.old pass.new }
        ensures transcript { HasTranscript pass.new }
        ensures told { IfOk result (λ events. map event_of events.items ≡ events_of (seen_of pass.new)) }
    {
        let question = Question { kind: Kind::Events };
        events_told(self.lock.call(rt, &mut pass.pass, question))
    }
}

// The hub of a core that was told nothing yet, and its first pass.
fn hub_of(alloc: Global, core: Core) -> Result<(Hub, Pass), AllocError>
    requires roots { AreRoots core.roots }
    requires stands { StandsFor [] core }
    ensures pass { IfOk result (λ made. IsPassOf made.0 made.1) }
    ensures first { IfOk result (λ made. IsFirst core.roots made.1) }
    ensures transcript { IfOk result (λ made. HasTranscript made.1) }
{
    let (lock, pass) = TurnLock::new(alloc, RecordedCore::new(alloc, core))?;
    Ok((Hub { lock }, Pass { pass }))
}

// The answer to an event.
fn told(told: HubReply) -> Result<Reply, HubStop>
    requires { IsTold told }
    ensures { told ≡ hub_reply.Told result }
{
    match told {
        HubReply::Told(result) => result,
        HubReply::Outstanding(_) | HubReply::Report(_) | HubReply::Events(_) => unreachable!(),
    }
}

// The answer to whether a result hasn't come.
fn is_outstanding(told: HubReply) -> bool
    requires { IsOutstandingTold told }
    ensures { told ≡ hub_reply.Outstanding result }
{
    match told {
        HubReply::Outstanding(result) => result,
        HubReply::Told(_) | HubReply::Report(_) | HubReply::Events(_) => unreachable!(),
    }
}

// The answer to what there is to report.
fn reported(told: HubReply) -> Result<Vec<ReportLine>, AllocError>
    requires { IsReported told }
    ensures { told ≡ hub_reply.Report result }
{
    match told {
        HubReply::Report(result) => result,
        HubReply::Told(_) | HubReply::Outstanding(_) | HubReply::Events(_) => unreachable!(),
    }
}

// The answer to what was told.
fn events_told(told: HubReply) -> Result<Vec<Event>, AllocError>
    requires { IsEventsTold told }
    ensures { told ≡ hub_reply.Events result }
{
    match told {
        HubReply::Events(result) => result,
        HubReply::Told(_) | HubReply::Outstanding(_) | HubReply::Report(_) => unreachable!(),
    }
}
