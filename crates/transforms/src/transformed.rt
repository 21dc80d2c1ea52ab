// A module text with its outcome.
ghost use Rattle.std.specs.Prelude.{◌≡◌, IfOk};
ghost use Rattle.module_semantics.specs.Analysis.{transformed};
ghost use Rattle.module_semantics.specs.ModuleText.{parsing};

use hmr_types::{ModName, Outcome};
use std::alloc::{AllocError, Global};
use std::marker::Model;

/// The result of transforming a module text: the module's name, the text, and its outcome, which is
/// always that of the definition `transformed`. Contracts see these three.
#[derive(Drop)]
pub struct Transformed {
    name: ModName,
    text: Vec<u8>,
    outcome: Outcome,
}

impl Model for Transformed {
    ghost use Rattle.std.specs.Prelude.{◌≡◌};
    ghost use Rattle.module_semantics.specs.Analysis.{transformed};
    ghost use Rattle.module_semantics.specs.ModuleText.{parsing};
    ghost use Rattle.transforms.specs.Transform.{Transform};

    ghost Value = { Transform };

    ghost view = { λ t. record { name = t.name; text = t.text.items; outcome = t.outcome } };

    ghost invariant = { λ t. t.outcome ≡ transformed parsing t.name t.text.items };
}

impl Transformed {
    /// The result for this name and text, whose outcome the definition gives.
    pub fn new(name: ModName, text: Vec<u8>, outcome: Outcome) -> Transformed
        requires exact { outcome ≡ transformed parsing name text.items }
        ensures { result ≡ record { name = name; text = text.items; outcome = outcome } }
    {
        Transformed {
            name,
            text,
            outcome,
        }
    }

    /// The name of the module.
    pub fn name(&self) -> &ModName
        ensures { result.now ≡ self.now.name }
    {
        &self.name
    }

    /// The bytes of the text.
    pub fn text(&self) -> &[u8]
        ensures { result.now ≡ self.now.text }
    {
        &self.text
    }

    /// The outcome: that of the definition for the name and the text.
    pub fn outcome(&self) -> &Outcome
        ensures value { result.now ≡ self.now.outcome }
        ensures exact { self.now.outcome ≡ transformed parsing self.now.name self.now.text }
    {
        &self.outcome
    }

    /// An equal value. It takes time and memory in proportion to the text and the analysis.
    pub fn copy(&self, alloc: Global) -> Result<Transformed, AllocError>
        ensures { IfOk result (λ copy. copy ≡ self.now) }
    {
        Ok(Transformed {
            name: self.name.clone()?,
            text: Vec::from_slice(alloc, &self.text)?,
            outcome: self.outcome.clone()?,
        })
    }

    /// The name, the text and the outcome.
    pub fn into_parts(self) -> (ModName, Vec<u8>, Outcome)
        ensures name { result.0 ≡ self.name }
        ensures text { result.1.items ≡ self.text }
        ensures outcome { result.2 ≡ self.outcome }
        ensures exact { self.outcome ≡ transformed parsing self.name self.text }
    {
        (self.name, self.text, self.outcome)
    }
}
