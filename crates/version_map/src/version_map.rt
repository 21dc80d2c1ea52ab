// The map from names to sources and to what is served.
ghost use Rattle.std.specs.Prelude.{◌≡◌, ◌+◌, ◌≤◌, [], ◌∷◌};
ghost use Rattle.std.specs.Prelude.{List, OnErr, OnOk, IfOk, IfErr, IfSome, Some, None, length, IsUtf8};
ghost use Rattle.std.specs.Option.{option_map, option_copied};
ghost use Rattle.core_model.specs.Names.{at};
ghost use Rattle.core_model.specs.Sources as changes;
ghost use Rattle.core_model.specs.Sources.{Change, answer_for, edit_answer, job, removed};
ghost use Rattle.core_model.specs.Sources.{result_answer, sources_after, text_length};
ghost use Rattle.hmr_types.specs.declared.limits.TheConstants.{LARGEST_NUMBER};
ghost use Rattle.hmr_types.specs.declared.words.EditRefusal.TheVariants.{NumbersSpent};
ghost use Rattle.version_map.specs.Changes.{ChangesAt};
ghost use Rattle.version_map.specs.Entries.{IsGood, answer_at, entry_at, served_in, serving_of};
ghost use Rattle.version_map.specs.Entries.{settled_serving, settled_source, source_in, unserved_source};
ghost use Rattle.version_map.specs.Inside.{Fits};
ghost use Rattle.version_map.specs.Standing.{Answered, Answers, StandsFor, answer_in, refused_in};
ghost use Rattle.version_map.specs.Standing.{settled_as, outstanding_in};

use crate::entry::{Entry, Served, Unserved};
use crate::outcome::{EditFault, EditOutcome, Settled};
use hmr_types::limits::{LARGEST_NUMBER, SOURCE_BYTES, SOURCE_NAMES, TEXT_BYTES};
use hmr_types::{EditRefusal, ModName, Outcome, Sequence, TextFault, Ver};
use std::alloc::{AllocError, Global};
use std::collections::BTreeMap;
use std::marker::Model;
use transforms::Transformed;

/// The sources of modules by name, and what is served of each. Contracts see it as the definitions
/// do, each list in the order of the names; that it is what the edits and results so far give is the
/// relation `StandsFor`.
#[derive(Drop)]
pub struct VersionMap {
    entries: BTreeMap<ModName, Entry>,
    total: usize,
    counted: Ver,
    served_no: u64,
}

impl Model for VersionMap {
    ghost use Rattle.core_model.specs.Sources.{Sources};
    ghost use Rattle.version_map.specs.Inside.{IsCounted, sources_of};

    ghost Value = { Sources };

    ghost view = { sources_of };

    ghost invariant = { IsCounted };
}

impl VersionMap {
    /// No name has a source, and nothing is served.
    pub fn new(alloc: Global) -> VersionMap
        ensures { StandsFor [] result }
    {
        VersionMap {
            entries: BTreeMap::new(alloc),
            total: 0,
            counted: 0,
            served_no: 0,
        }
    }

    /// Gives the name a text, or takes its source away. A refusal comes for the first of these that
    /// stands against the edit: the text has more than 131,072 bytes; the name is new and 8,192 names
    /// have a source; all current sources would have more than 33,554,432 bytes; 9007199254740991
    /// edits were counted, which refuses a removal too. A text that is the current source, or a
    /// removal of none, is [`EditOutcome::Same`], whatever but the length of the text stands against
    /// it. [`EditFault::NoMemory`] may come in place of a job. A refused edit changes nothing.
    ///
    /// It takes as many comparisons of names as the logarithm of their number; the text is moved in
    /// and not copied.
    pub fn edit(&mut self, name: ModName, text: Option<Vec<u8>>) -> Result<EditOutcome, EditFault>
        ensures stands { (past : List Change) → StandsFor past self.old
            → Answered result
            (StandsFor (changes.edit name (option_map (λ t. t.items) text) ∷ past) self.new) }
        ensures answer { (past : List Change) → StandsFor past self.old
            → Answers result (edit_answer (sources_after past) name (option_map (λ t. t.items) text)) }
        ensures unchanged { OnErr result (self.new ≡ self.old) }
    {
        match text {
            Some(text) => self.give(name, Sequence::from_vec(text)),
            None => self.take_away(&name),
        }
    }

    fn give(&mut self, name: ModName, text: Sequence<u8>) -> Result<EditOutcome, EditFault>
        ensures stands { (past : List Change) → StandsFor past self.old
            → Answered result (StandsFor (changes.edit name (Some text) ∷ past) self.new) }
        ensures answer { Answers result (edit_answer self.old name (Some text)) }
        ensures unchanged { OnErr result (self.new ≡ self.old) }
    {
        match self.answer(&name, text.as_slice())? {
            EditOutcome::Job(ver) => {
                self.issue(name, ver, text)?;
                Ok(EditOutcome::Job(ver))
            }
            outcome => Ok(outcome),
        }
    }

    // What giving a text answers.
    fn answer(&self, name: &ModName, text: &[u8]) -> Result<EditOutcome, EditRefusal>
        ensures { answer_in result ≡ edit_answer self.now name.now (Some text.now) }
    {
        if text.len() > TEXT_BYTES {
            return Err(EditRefusal::TextTooLong);
        }
        let replaced = match self.entry(name) {
            Some(entry) if entry.text() == text => return Ok(EditOutcome::Same),
            Some(entry) => entry.text().len(),
            None if self.entries.len() >= SOURCE_NAMES => return Err(EditRefusal::TooManyNames),
            None => 0,
        };
        if self.total - replaced + text.len() > SOURCE_BYTES {
            return Err(EditRefusal::SourceTotal);
        }
        let ver = self.next_ver()?;
        Ok(EditOutcome::Job(ver))
    }

    fn next_ver(&self) -> Result<Ver, EditRefusal>
        ensures ok { IfOk result (λ v. (v ≡ self.now.counted + 1) × (v ≤ LARGEST_NUMBER)) }
        ensures err { IfErr result
            (λ refusal. (refusal ≡ NumbersSpent) × (LARGEST_NUMBER ≤ self.now.counted)) }
    {
        if self.counted >= LARGEST_NUMBER {
            return Err(EditRefusal::NumbersSpent);
        }
        Ok(self.counted + 1)
    }

    fn issue(&mut self, name: ModName, ver: Ver, text: Sequence<u8>) -> Result<(), AllocError>
        requires { edit_answer self.old name (Some text) ≡ job ver }
        ensures stands { (past : List Change) → StandsFor past self.old
            → OnOk result (StandsFor (changes.edit name (Some text) ∷ past) self.new) }
        ensures unchanged { OnErr result (self.new ≡ self.old) }
    {
        let replaced = self.text_len(&name);
        let len = text.as_slice().len();
        let fault = None;
        put(&mut self.entries, name, Unserved { ver, text, fault })?;
        self.total = self.total - replaced + len;
        self.counted = ver;
        Ok(())
    }

    fn text_len(&self, name: &ModName) -> usize
        ensures { result ≡ text_length (at self.now.current name.now) }
    {
        match self.entry(name) {
            Some(entry) => entry.text().len(),
            None => 0,
        }
    }

    /// Takes the name's source away, as an `edit` without a text does.
    pub fn take_away(&mut self, name: &ModName) -> Result<EditOutcome, EditFault>
        ensures stands { (past : List Change) → StandsFor past self.old
            → Answered result (StandsFor (changes.edit name.now None ∷ past) self.new) }
        ensures answer { Answers result (edit_answer self.old name.now None) }
        ensures unchanged { OnErr result (self.new ≡ self.old) }
    {
        if self.entry(name).is_none() {
            return Ok(EditOutcome::Same);
        }
        let ver = self.next_ver()?;
        self.remove(name, ver);
        Ok(EditOutcome::Removed(ver))
    }

    fn remove(&mut self, name: &ModName, ver: Ver)
        requires { edit_answer self.old name.now None ≡ removed ver }
        ensures { (past : List Change) → StandsFor past self.old
            → StandsFor (changes.edit name.now None ∷ past) self.new }
    {
        let replaced = self.text_len(name);
        remove(&mut self.entries, name);
        self.total -= replaced;
        self.counted = ver;
        self.served_no += 1;
    }

    /// The result for a version of its name. It is [`Settled::Late`] where its version and text aren't
    /// those of the current source, or where an earlier result settled that source; then it changes
    /// nothing. Else a good one is served from now on, and a bad one is told with its fault, and what
    /// is served stays.
    ///
    /// It takes as many comparisons of names as the logarithm of their number.
    pub fn settle(&mut self, transformed: Transformed, ver: Ver) -> Settled
        ensures stands { (past : List Change) → StandsFor past self.old
            → StandsFor
            (changes.result transformed.name transformed.text transformed.outcome ver ∷ past) self.new }
        ensures answer { (past : List Change) → StandsFor past self.old
            → result
            ≡ settled_as
            (result_answer (sources_after past) transformed.name transformed.text transformed.outcome ver) }
    {
        let (name, text, outcome) = transformed.into_parts();
        self.settle_parts(&name, ver, text, outcome)
    }

    fn settle_parts(&mut self, name: &ModName, ver: Ver, text: Vec<u8>, outcome: Outcome) -> Settled
        requires { IsGood outcome → IsUtf8 text.items }
        ensures stands { (past : List Change) → StandsFor past self.old
            → StandsFor (changes.result name.now text.items outcome ver ∷ past) self.new }
        ensures answer { result ≡ settled_as (result_answer self.old name.now text.items outcome ver) }
    {
        let settled = settle(&mut self.entries, name, ver, text, outcome);
        if let Settled::Served = settled {
            self.served_no += 1;
        }
        settled
    }

    fn entry(&self, name: &ModName) -> Option<&Entry>
        ensures source { source_in (option_copied result) ≡ at self.now.current name.now }
        ensures serving { served_in (option_copied result) ≡ at self.now.served name.now }
        ensures fits { IfSome (served_in (option_copied result)) (λ s. Fits s.version s.text) }
        ensures utf8 { IfSome (served_in (option_copied result)) (λ s. IsUtf8 s.text) }
    {
        self.entries.get(name)
    }

    /// What is served of the name.
    pub fn served(&self, name: &ModName) -> Option<&Served>
        ensures value { option_map (λ s. serving_of s.now) result ≡ at self.now.served name.now }
        ensures fits { IfSome result (λ s. Fits s.now.ver s.now.text) }
        ensures utf8 { IfSome result (λ s. IsUtf8 s.now.text) }
    {
        match self.entry(name) {
            Some(entry) => entry.served(),
            None => None,
        }
    }

    /// How often something was served, or removed.
    pub fn served_no(&self) -> u64
        ensures { result ≡ self.now.served_no }
    {
        self.served_no
    }

    /// Whether the name has a source for which no result came yet.
    pub fn outstanding(&self, name: &ModName) -> bool
        ensures { result ≡ outstanding_in (at self.now.current name.now) }
    {
        match self.entry(name) {
            Some(entry) => entry.is_outstanding(),
            None => false,
        }
    }

    /// The fault of the name's source, where its result was bad.
    pub fn refused(&self, name: &ModName) -> Option<&TextFault>
        ensures { option_copied result ≡ refused_in (at self.now.current name.now) }
    {
        match self.entry(name) {
            Some(entry) => entry.fault(),
            None => None,
        }
    }
}

// Puts a source in the place of the name's own. What is served stays.
fn put(
    entries: &mut BTreeMap<ModName, Entry>,
    name: ModName,
    source: Unserved,
) -> Result<(), AllocError>
    ensures ok { OnOk result
        (ChangesAt name (Some (unserved_source source))
        (served_in (entry_at entries.old.entries name)) entries.old.entries entries.new.entries) }
    ensures err { OnErr result (entries.new.entries ≡ entries.old.entries) }
{
    match entries.get_mut(&name) {
        Some(entry) => entry.renew(source),
        None => {
            entries.insert(name, Entry::Unserved(source, None))?;
        }
    }
    Ok(())
}

// Takes the name's entry out.
fn remove(entries: &mut BTreeMap<ModName, Entry>, name: &ModName)
    ensures { ChangesAt name.now None None entries.old.entries entries.new.entries }
{
    entries.remove(name);
}

// Settles the name's source, or not where the result is late.
fn settle(
    entries: &mut BTreeMap<ModName, Entry>,
    name: &ModName,
    ver: Ver,
    text: Vec<u8>,
    outcome: Outcome,
) -> Settled
    ensures answer { result
        ≡ settled_as (answer_at (source_in (entry_at entries.old.entries name.now)) text.items outcome ver) }
    ensures entries { let old = entry_at entries.old.entries name.now in let answer = answer_at
        (source_in old)
        text.items outcome ver in ChangesAt name.now
        (option_map (settled_source answer text.items ver) (source_in old))
        (settled_serving answer text.items ver (served_in old)) entries.old.entries entries.new.entries }
{
    match entries.get_mut(name) {
        Some(entry) => entry.settle(ver, text, outcome),
        None => Settled::Late,
    }
}
