// The first edits of a hub: all are told, their jobs are worked by several threads, and then the results are
// told in the order of the edits.
ghost use Rattle.std.specs.Option.{option_to_list};
ghost use Rattle.std.specs.Prelude.{◌≡◌, ◌+◌, ◌≤◌, ◌++◌, ◌∷◌, []};
ghost use Rattle.std.specs.Prelude.{All, IfErr, IfOk, IfSome, List, OnErr, OnOk, length, map, true};
ghost use Rattle.hmr_types.specs.declared.limits.TheConstants.{MESSAGE_BYTES};
ghost use Rattle.core_model.specs.Formed.{IsVersion};
ghost use Rattle.transform_pool.specs.Tasks.{Task};
ghost use Rattle.hmr_hub.specs.Calls.{SameKnower};
ghost use Rattle.hmr_hub.specs.Passes.{HasTranscript, IsPassOf, is_alone, number_of, seen_of};
ghost use Rattle.hub_editor.specs.Causes.{IsCause, IsRoomStop};
ghost use Rattle.hub_editor.specs.Edits.{Edit, IsWorkable, edits_in, length_of, text_in};
ghost use Rattle.hub_editor.specs.Openings.{AreAccepted, BeginsOpening, BeginsResults, Opening};
ghost use Rattle.hub_editor.specs.Openings.{StopsFirst, StopsOpening, opening, told_entries};

use crate::stop::EditStop;
use crate::telling::{stop_by, tell_result, told_work};
use hmr_hub::{Hub, Pass};
use hmr_types::{ModName, Ver};
use std::alloc::{AllocError, Global};
use std::sync::Wait;
use std::thread::Threads;
use transform_pool::{TextJob, run_jobs};
use transforms::Transformed;

/// Makes the first edits of a hub, each of a name and a text of at most 16,777,216 bytes together, by its
/// first pass before any other was split off; then works the jobs that came of them, by so many threads at
/// most, and tells their results. What the pass has seen then is the edits in order, and then the results in
/// order. It waits, and takes memory for a copy of the texts.
///
/// [`EditStop::Text`], `Names` and `Sources` come where an edit was refused, `Full` where the transcript has
/// no place, `NoMemory` where memory ran out. After each the pass has seen a prefix of the edits in order,
/// and then of the results; no edit behind a refused one was made, and a refused one gives the stop of its
/// refusal. Where it is Ok, no edit was refused.
pub fn open_sources<R: Threads + Wait + Sync>(
    rt: &R,
    alloc: Global,
    hub: &Hub,
    pass: &mut Pass,
    edits: Vec<(ModName, Option<Vec<u8>>)>,
    workers: usize,
) -> Result<(), EditStop>
    requires of { IsPassOf hub.now pass.old }
    requires number { number_of pass.old ≡ 0 }
    requires alone { is_alone pass.old ≡ true }
    requires fresh { seen_of pass.old ≡ [] }
    requires short { All (λ e. length_of (e.0, text_in e.1) ≤ MESSAGE_BYTES) edits.items }
    ensures of { IsPassOf hub.now pass.new }
    ensures same { SameKnower pass.old pass.new }
    ensures transcript { HasTranscript pass.old → HasTranscript pass.new }
    ensures opened { OnOk result (seen_of pass.new ≡ opening (edits_in edits.items)) }
    ensures accepted { OnOk result (AreAccepted [] (edits_in edits.items)) }
    ensures front { OnErr result (BeginsOpening (edits_in edits.items) pass.new) }
    ensures stopped { IfErr result (StopsOpening (edits_in edits.items) pass.new) }
    ensures cause { IfErr result (IsCause pass.new) }
{
    let jobs = tell_edits(rt, alloc, hub, pass, edits)?;
    let versions = versions_of(alloc, &jobs)?;
    let done = run_jobs(rt, alloc, jobs, workers)?;
    tell_results(rt, hub, pass, done, &versions)
}

// Tells the edits, and gives the jobs that came of them.
fn tell_edits<R: Wait>(
    rt: &R,
    alloc: Global,
    hub: &Hub,
    pass: &mut Pass,
    edits: Vec<(ModName, Option<Vec<u8>>)>,
) -> Result<Vec<TextJob>, EditStop>
    requires of { IsPassOf hub.now pass.old }
    requires number { number_of pass.old ≡ 0 }
    requires alone { is_alone pass.old ≡ true }
    requires fresh { seen_of pass.old ≡ [] }
    requires short { All (λ e. length_of (e.0, text_in e.1) ≤ MESSAGE_BYTES) edits.items }
    ensures of { IsPassOf hub.now pass.new }
    ensures same { SameKnower pass.old pass.new }
    ensures transcript { HasTranscript pass.old → HasTranscript pass.new }
    ensures opening { IfOk result (λ jobs. Opening (edits_in edits.items) pass.new jobs.items) }
    ensures front { OnErr result (BeginsOpening (edits_in edits.items) pass.new) }
    ensures stopped { IfErr result (StopsOpening (edits_in edits.items) pass.new) }
    ensures workable { IfOk result (λ jobs. All IsWorkable jobs.items) }
    ensures cause { IfErr result (IsCause pass.new) }
{
    let mut jobs = Vec::new(alloc);
    for (name, text) in edits {
        let job = tell_first(rt, alloc, hub, pass, name, text)?;
        put_job(&mut jobs, job)?;
    }
    Ok(jobs)
}

// Tells one of the first edits, and gives the job that came of it.
fn tell_first<R: Wait>(
    rt: &R,
    alloc: Global,
    hub: &Hub,
    pass: &mut Pass,
    name: ModName,
    text: Option<Vec<u8>>,
) -> Result<Option<TextJob>, EditStop>
    requires of { IsPassOf hub.now pass.old }
    requires number { number_of pass.old ≡ 0 }
    requires alone { is_alone pass.old ≡ true }
    requires short { length_of (name, text_in text) ≤ MESSAGE_BYTES }
    ensures of { IsPassOf hub.now pass.new }
    ensures same { SameKnower pass.old pass.new }
    ensures transcript { HasTranscript pass.old → HasTranscript pass.new }
    ensures opens { IfOk result (λ job. (edits : List Edit) (jobs : List Task) → Opening edits pass.old jobs
        → Opening (edits ++ (name, text_in text) ∷ []) pass.new (jobs ++ option_to_list job)) }
    ensures stopped { IfErr result (StopsFirst (name, text_in text) pass.old pass.new) }
    ensures workable { IfOk result (λ job. IfSome job IsWorkable) }
    ensures cause { IfErr result (IsCause pass.new) }
{
    let work = told_work(rt, alloc, hub, pass, name, text)?;
    if let Err(refusal) = work.answer() {
        return Err(stop_by(refusal));
    }
    Ok(work.into_job())
}

// The jobs with one more, where there is one.
fn put_job(jobs: &mut Vec<TextJob>, job: Option<TextJob>) -> Result<(), AllocError>
    ensures { OnOk result (jobs.new.items ≡ jobs.old.items ++ option_to_list job) }
{
    match job {
        Some(job) => Ok(jobs.push(job)?),
        None => Ok(()),
    }
}

// The version of each job.
fn versions_of(alloc: Global, jobs: &[TextJob]) -> Result<Vec<Ver>, AllocError>
    ensures { IfOk result (λ versions. versions.items ≡ map (λ job. job.ver) jobs.now) }
{
    let mut versions = Vec::with_capacity(alloc, jobs.len())?;
    for job in jobs {
        versions.push(job.ver())?;
    }
    Ok(versions)
}

// Tells the results, each with the version at its place.
fn tell_results<R: Wait>(
    rt: &R,
    hub: &Hub,
    pass: &mut Pass,
    done: Vec<Transformed>,
    versions: &[Ver],
) -> Result<(), EditStop>
    requires of { IsPassOf hub.now pass.old }
    requires number { number_of pass.old ≡ 0 }
    requires alone { is_alone pass.old ≡ true }
    requires many { length done.items ≤ length versions.now }
    requires short { All (λ d. length d.name + length d.text ≤ MESSAGE_BYTES) done.items }
    requires versions { All IsVersion versions.now }
    ensures of { IsPassOf hub.now pass.new }
    ensures same { SameKnower pass.old pass.new }
    ensures transcript { HasTranscript pass.old → HasTranscript pass.new }
    ensures told { OnOk result
        (seen_of pass.new ≡ seen_of pass.old ++ told_entries done.items versions.now) }
    ensures front { OnErr result (BeginsResults done.items versions.now pass.old pass.new) }
    ensures room { IfErr result IsRoomStop }
    ensures cause { IfErr result (IsCause pass.new) }
{
    let mut at = 0;
    for done in done {
        tell_result(rt, hub, pass, done, versions[at])?;
        at += 1;
    }
    Ok(())
}
