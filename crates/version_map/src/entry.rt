// What is kept of a name that has a source. Where the source is served, its text stands in what is
// served and nowhere else.
ghost use Rattle.std.specs.Prelude.{◌≡◌, Some};
ghost use Rattle.std.specs.Option.{option_map, option_copied};
ghost use Rattle.core_model.specs.Sources.{is_awaited, is_outstanding};
ghost use Rattle.version_map.specs.Entries.{answer_at, fault_of, served_of, serving_of, settled_serving};
ghost use Rattle.version_map.specs.Entries.{settled_source, source_of, unserved_source};
ghost use Rattle.version_map.specs.Standing.{settled_as};

use crate::outcome::Settled;
use hmr_types::{Analysis, Outcome, Sequence, TextFault, Ver};
use std::mem;

/// What is served of a name.
#[derive(Drop)]
pub struct Served {
    /// The version of the source.
    pub ver: Ver,
    /// The bytes of its text.
    pub text: Sequence<u8>,
    /// What static analysis tells of it.
    pub analysis: Analysis,
}

/// A source that isn't served: its result hasn't come yet, or was bad, with this fault.
#[derive(Drop)]
pub(crate) struct Unserved {
    pub ver: Ver,
    pub text: Sequence<u8>,
    pub fault: Option<TextFault>,
}

/// What is kept of a name that has a source.
#[derive(Drop)]
pub(crate) enum Entry {
    /// The source is served.
    Served(Served),
    /// The source isn't served; an earlier one may be.
    Unserved(Unserved, Option<Served>),
}

impl Entry {
    /// The text of the source.
    pub fn text(&self) -> &[u8]
        ensures { result.now ≡ (source_of self.now).text }
    {
        match self {
            Entry::Served(served) => served.text.as_slice(),
            Entry::Unserved(source, _) => source.text.as_slice(),
        }
    }

    /// Whether no result came for the source yet.
    pub fn is_outstanding(&self) -> bool
        ensures { result ≡ is_outstanding (source_of self.now).verdict }
    {
        match self {
            Entry::Served(_) => false,
            Entry::Unserved(source, _) => source.fault.is_none(),
        }
    }

    /// The fault of the source, where its result was bad.
    pub fn fault(&self) -> Option<&TextFault>
        ensures { option_copied result ≡ fault_of (source_of self.now).verdict }
    {
        match self {
            Entry::Served(_) => None,
            Entry::Unserved(source, _) => source.fault.as_ref(),
        }
    }

    /// What is served.
    pub fn served(&self) -> Option<&Served>
        ensures { option_map (λ s. serving_of s.now) result ≡ served_of self.now }
    {
        match self {
            Entry::Served(served) => Some(served),
            Entry::Unserved(_, served) => served.as_ref(),
        }
    }

    fn into_served(self) -> Option<Served>
        ensures { option_map serving_of result ≡ served_of self }
    {
        match self {
            Entry::Served(served) => Some(served),
            Entry::Unserved(_, served) => served,
        }
    }

    /// Puts a source in the place of the one that is kept. What is served stays.
    pub fn renew(&mut self, source: Unserved)
        ensures source { source_of self.new ≡ unserved_source source }
        ensures served { served_of self.new ≡ served_of self.old }
    {
        let unserved = Entry::Unserved(source, None);
        let old = mem::replace(self, unserved);
        if let Entry::Unserved(_, served) = self {
            *served = old.into_served();
        }
    }

    /// The result for a text at a version: the source's, or late.
    pub fn settle(&mut self, ver: Ver, text: Vec<u8>, outcome: Outcome) -> Settled
        ensures answer { result ≡ settled_as (answer_at (Some (source_of self.old)) text.items outcome ver) }
        ensures source { source_of self.new
            ≡ settled_source (answer_at (Some (source_of self.old)) text.items outcome ver) text.items ver
            (source_of self.old) }
        ensures served { served_of self.new
            ≡ settled_serving (answer_at (Some (source_of self.old)) text.items outcome ver) text.items ver
            (served_of self.old) }
    {
        if !self.awaits(ver, &text) {
            return Settled::Late;
        }
        let text = Sequence::from_vec(text);
        match outcome {
            Outcome::Good(analysis) => {
                *self = Entry::Served(Served {
                    ver,
                    text,
                    analysis,
                });
                Settled::Served
            }
            Outcome::Bad(fault) => {
                self.renew(Unserved {
                    ver,
                    text,
                    fault: Some(fault),
                });
                Settled::RefusedText(fault)
            }
        }
    }

    // Whether a result for this version and text is of the source, and the first.
    fn awaits(&self, ver: Ver, text: &[u8]) -> bool
        ensures { result ≡ is_awaited (Some (source_of self.now)) text.now ver }
    {
        match self {
            Entry::Served(_) => false,
            Entry::Unserved(source, _) => {
                source.ver == ver && source.text.as_slice() == text && source.fault.is_none()
            }
        }
    }
}
