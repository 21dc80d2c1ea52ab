// A plan as a page tells it.
ghost use Rattle.std.specs.Prelude.{◌≡◌};
ghost use Rattle.told_plans.specs.Plans.{at, kept_plan, made_plan};

use hmr_types::{ModName, Ver};
use instance_urls::{Instances, PlanId};
use std::collections::BTreeMap;
use std::marker::Model;

/// An instance that a plan keeps.
#[derive(Clone, Copy, Debug, PartialEq, Eq)]
pub struct Kept {
    /// The plan that made it; None where it is at the plain URL.
    pub plan: Option<PlanId>,
    /// The version of its module.
    pub version: Ver,
}

/// A plan of a page: which modules it makes anew, each at a version, and where the other instances are that
/// these are linked to.
#[derive(Drop)]
pub struct ToldPlan {
    pub(crate) id: PlanId,
    pub(crate) plain: bool,
    pub(crate) made: BTreeMap<ModName, Ver>,
    pub(crate) kept: BTreeMap<ModName, Kept>,
}

impl Model for ToldPlan {
    ghost use Rattle.told_plans.specs.Plans.{Told};

    ghost Value = { Told };

    ghost view = { λ p. record {
      id = p.id;
      plain = p.plain;
      made = p.made.entries;
      kept = p.kept.entries;
    } };
}

impl ToldPlan {
    /// Which plan it is.
    pub fn id(&self) -> PlanId
        ensures { result ≡ self.now.id }
    {
        self.id
    }

    /// Whether the modules that it makes are at their plain URLs, as those of a page's first load.
    pub fn is_plain(&self) -> bool
        ensures { result ≡ self.now.plain }
    {
        self.plain
    }

    /// The modules that it makes, with their versions, in the order of their names.
    pub fn made(&self) -> &BTreeMap<ModName, Ver>
        ensures { result.now.entries ≡ self.now.made }
    {
        &self.made
    }

    /// The instances that it keeps, in the order of their modules' names.
    pub fn kept(&self) -> &BTreeMap<ModName, Kept>
        ensures { result.now.entries ≡ self.now.kept }
    {
        &self.kept
    }

    /// The version at which it makes a module; None where it doesn't make it. It takes time in the logarithm of
    /// the modules.
    pub fn version(&self, name: &ModName) -> Option<Ver>
        ensures { result ≡ at self.now.made name.now }
    {
        self.made.get(name).copied()
    }
}

impl Instances for ToldPlan {
    ghost use Rattle.told_plans.specs.Plans.{instance_of};

    ghost instance_of = { instance_of };

    fn instance(&self, name: &ModName) -> Option<PlanId> {
        match self.version(name) {
            Some(_) => made_plan(self.plain, self.id),
            None => kept_plan(self.kept.get(name).copied()),
        }
    }
}

/// Where the instances are that a plan makes.
fn made_plan(plain: bool, id: PlanId) -> Option<PlanId>
    ensures { result ≡ made_plan plain id }
{
    if plain { None } else { Some(id) }
}

/// Where an instance is that a plan keeps.
fn kept_plan(kept: Option<Kept>) -> Option<PlanId>
    ensures { result ≡ kept_plan kept }
{
    match kept {
        Some(kept) => kept.plan,
        None => None,
    }
}
