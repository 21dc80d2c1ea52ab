// How a pass goes on over many calls, as laws: what a caller that tells a hub many events says of all of them
// together, what was answered to an entry, and when a transcript is nearly full. Nothing here runs: a law is
// the clause of a public function with an empty body.
ghost use Rattle.std.specs.Prelude.{◌≡◌, ◌≤◌, ◌++◌, ℕ, List, true};
ghost use Rattle.hmr_types.specs.declared.limits.TheConstants.{MESSAGE_BYTES};
ghost use Rattle.core_model.specs.Names.{Name};
ghost use Rattle.core_model.specs.Core.{Event};
ghost use Rattle.core_model.specs.Transcript.{Recorded, event_bytes};
ghost use Rattle.events_and_replies.specs.declared.event.Reply.{Reply};
ghost use Rattle.hmr_hub.specs.declared.pass.Pass.{Pass};
ghost use Rattle.hmr_hub.specs.Passes.{roots_of, seen_of};
ghost use Rattle.transcripts.specs.Transcripts.{is_full};
ghost use Rattle.hmr_hub.specs.Moves.{KnowsOwn, Moved};
ghost use Rattle.hmr_hub.specs.Answered.{Answered};
ghost use Rattle.hmr_hub.specs.Fullness.{IsNearlyFull};

/// A pass that went on twice went on, by the entries of both; and it still knows its own number.
pub fn moves_follow_one_another()
    ensures both { (p q r : Pass) (a b : List Recorded) → Moved p q a → Moved q r b → Moved p r (a ++ b) }
    ensures knows { (p q : Pass) (mine : List Recorded) → Moved p q mine → KnowsOwn p → KnowsOwn q }
{}

/// What was answered to an entry stays so in every longer transcript, and when the pass goes on.
pub fn an_answer_stays()
    ensures longer { (roots : List Name)
        (entries more : List Recorded) (by : ℕ) (event : Event) (reply : Reply)
        → Answered roots entries by event reply → Answered roots (entries ++ more) by event reply }
    ensures moved { (p q : Pass)
        (mine : List Recorded) (by : ℕ) (event : Event) (reply : Reply) → Moved p q mine
        → Answered (roots_of p) (seen_of p) by event reply
        → Answered (roots_of q) (seen_of q) by event reply }
{}

/// A transcript that has no place for an event of a message's size is nearly full, and stays so.
pub fn a_full_transcript_is_nearly_full()
    ensures full { (entries : List Recorded) (event : Event) → is_full entries event ≡ true
        → event_bytes event ≤ MESSAGE_BYTES → IsNearlyFull entries }
    ensures longer { (entries more : List Recorded) → IsNearlyFull entries → IsNearlyFull (entries ++ more) }
{}
