// A plan under way: its kind, what an update replaces, and the modules that were fetched for it.
ghost use Rattle.std.specs.Prelude.{◌≡◌, [], option_map, IfOk, OnErr, OnOk};
ghost use Rattle.hmr_types.specs.declared.words.PlanKind.TheVariants.{Update};
ghost use Rattle.core_model.specs.Names.{at, has, with_row};
ghost use Rattle.core_model.specs.Page.{Plan, entry_at, new_plan};
ghost use Rattle.module_graph.specs.Entries.{put_entry};
ghost use Rattle.page_plan.specs.Plans.{IsSamePlan, keeps};

use hmr_types::{Analysis, ModName, PlanKind, Ver};
use module_graph::{NameSet, View};
use std::alloc::{AllocError, Global};
use std::marker::Model;

/// A plan under way. Contracts see it as the definitions' plan: its kind, the names that an update
/// replaces, and the modules that were fetched for it. Both lists are in an order of the code's own;
/// that it is the plan of the definitions is the relation `IsSamePlan`.
#[derive(Drop)]
pub struct Plan {
    kind: PlanKind,
    replaced: NameSet,
    staged: View,
}

impl Model for Plan {
    ghost use Rattle.core_model.specs.Page.{Plan};

    ghost Value = { Plan };

    ghost view = { λ p. record { kind = p.kind; replaced = p.replaced; staged = p.staged } };
}

impl Plan {
    /// A plan of this kind, which replaces no names and for which nothing was fetched yet.
    pub fn new(alloc: Global, kind: PlanKind) -> Plan
        ensures { result ≡ new_plan kind [] }
    {
        Plan {
            kind,
            replaced: NameSet::new(alloc),
            staged: View::new(alloc),
        }
    }

    /// An update that replaces the modules of these names, and for which nothing was fetched yet.
    pub fn update(alloc: Global, replaced: &[ModName]) -> Result<Plan, AllocError>
        ensures { IfOk result (IsSamePlan (new_plan Update replaced.now)) }
    {
        let replaced = NameSet::of(alloc, replaced)?;
        Ok(Plan {
            kind: PlanKind::Update,
            replaced,
            staged: View::new(alloc),
        })
    }

    /// The kind of the plan.
    pub fn kind(&self) -> PlanKind
        ensures { result ≡ self.now.kind }
    {
        self.kind
    }

    /// Whether the module of this name is replaced.
    pub fn replaces(&self, name: &ModName) -> bool
        ensures { result ≡ has self.now.replaced name.now }
    {
        self.replaced.has(name)
    }

    /// The names of the modules that an update replaces. It takes time in proportion to their number.
    pub fn replaced(&self, alloc: Global) -> Result<Vec<ModName>, AllocError>
        ensures { IfOk result (λ names. names.items ≡ self.now.replaced) }
    {
        let names = self.replaced.names(alloc)?;
        Ok(names)
    }

    // What was fetched of a module.
    pub(crate) fn staged(&self, name: &ModName) -> Option<(Ver, &Analysis)>
        ensures { option_map (λ found. record { version = found.0; analysis = found.1.now }) result
            ≡ at self.now.staged name.now }
    {
        self.staged.get(name)
    }

    /// A module was fetched, in place of an earlier fetch of its name. A refusal changes nothing.
    pub fn stage(
        &mut self,
        name: ModName,
        version: Ver,
        analysis: Analysis,
    ) -> Result<(), AllocError>
        ensures ok { (p : Plan) → IsSamePlan p self.old
            → OnOk result
            (IsSamePlan
            (record p {
              staged = with_row name
                  (record { version = version; analysis = analysis }) p.staged;
            }) self.new) }
        ensures staged { OnOk result
            (self.new
            ≡ record self.old {
              staged = put_entry name
                  (record { version = version; analysis = analysis }) self.old.staged;
            }) }
        ensures err { OnErr result (self.new ≡ self.old) }
    {
        self.staged.put(name, version, analysis)?;
        Ok(())
    }

    /// The entry that a module has in the plan, over the page's modules: kept or fetched.
    pub fn entry<'a>(&'a self, view: &'a View, name: &ModName) -> Option<(Ver, &'a Analysis)>
        ensures { option_map (λ found. record { version = found.0; analysis = found.1.now }) result
            ≡ entry_at self.now view.now name.now }
    {
        if self.keeps(name)
            && let Some(kept) = view.get(name)
        {
            return Some(kept);
        }
        self.staged.get(name)
    }

    // Whether a module of the page that has this name is kept.
    fn keeps(&self, name: &ModName) -> bool
        ensures { result ≡ keeps self.now name.now }
    {
        match self.kind {
            PlanKind::Load | PlanKind::Reload => false,
            PlanKind::Update => !self.replaces(name),
        }
    }
}
