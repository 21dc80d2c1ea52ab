// A plan under way, as a client has it: what was fetched, where its walk stands, and what an update tells
// of whom.
ghost use Rattle.std.specs.Option.{option_map};
ghost use Rattle.std.specs.Prelude.{◌≡◌, [], true, length, IfOk};
ghost use Rattle.update_msgs.specs.Writable.{IsSayable};
ghost use Rattle.core_model.specs.Names.{names_of, rising};
ghost use Rattle.core_model.specs.Page.{Plan, new_view};
ghost use Rattle.core_model.specs.View.{table_of};
ghost use Rattle.client_model.specs.Linking.{link_cause, new_names, next_needed};
ghost use Rattle.client_model.specs.Requesting.{abort_message, apply_or_abort, carry_on, cause_by};
ghost use Rattle.client_model.specs.Requesting.{fetch_or_finish};
ghost use Rattle.client_model.specs.Runtime.{Runtime};
ghost use Rattle.module_language.specs.ModuleLanguage.{module_language};
ghost use Rattle.page_plan.specs.Plans.{IsSamePlan};
ghost use Rattle.client_plan.specs.Planned.{count_in};
ghost use Rattle.client_plan.specs.UnderWay.{IsNext, IsReady, IsUnderWay, cause_of};
ghost use Rattle.client_plan.specs.UnderWay.{is_aborted, is_applied_told, untold};

use crate::cause::{Cause, abort_message};
use crate::renewing::renewed_table;
use crate::table::table_of;
use hmr_types::{ModName, Table};
use module_graph::{View, copy_name};
use module_tree::Module;
use page_plan::{Plan, Walker};
use std::alloc::{AllocError, Global};
use std::collections::BTreeMap;
use update_msgs::ClientMsg;

/// A plan under way.
#[derive(Drop)]
pub struct UnderWay {
    /// Its kind, what it replaces, and what was fetched for it.
    pub plan: Plan,
    /// Where its walk stands, as long as something is left to be fetched.
    pub walk: Walk,
    /// What carries it on, where no cause was found.
    pub next: Next,
    /// What the texts read as that were fetched.
    pub trees: BTreeMap<ModName, Module>,
    /// The boundaries of an update, each with the module that it is told of.
    pub pairs: Vec<(ModName, ModName)>,
    /// Why it can't be carried out, where a fetch found a cause.
    pub cause: Option<Cause>,
}

/// Where the walk of a plan stands.
#[derive(Drop)]
pub enum Walk {
    /// Before the module that is needed next.
    Begun(Walker),
    /// It isn't begun: the plan replaces one module of a page of which the roots reach all modules, so that
    /// this module is needed, and no other where it keeps its imports.
    Spared,
}

/// What carries a plan on.
#[derive(Drop)]
pub enum Next {
    /// This module is to be fetched.
    Fetch(ModName),
    /// All is fetched.
    Finish(Ready),
}

/// A plan for which all is fetched: what becomes of the page's modules, which of them get a new instance, in
/// the order of their evaluation, the first import of a new instance that isn't exported, where there is
/// one, and whether the page's modules are then exactly those that the roots reach.
#[derive(Drop)]
pub struct Ready {
    /// The page's modules once the plan is applied.
    pub modules: Modules,
    /// The modules that get a new instance.
    pub names: Vec<ModName>,
    /// The first import that isn't exported.
    pub link: Option<Cause>,
    /// Whether the page's modules are then those that the roots reach. It may be false where they are.
    pub whole: bool,
}

/// What becomes of the page's modules where a plan is applied.
#[derive(Drop)]
pub enum Modules {
    /// They are these.
    Anew(View),
    /// They stay, and those that get a new instance have their entries of the plan.
    Renewed,
}

impl UnderWay {
    /// What carries the plan on over the page's modules, as the client asks or tells it: it is given up, goes
    /// on with a fetch, or is applied. The message can be written. It takes time in proportion to the message;
    /// it fails only where memory runs out.
    pub fn request(&self, alloc: Global, view: &View) -> Result<ClientMsg, AllocError>
        ensures request { (r : Runtime) (p : Plan) → IsUnderWay r p self.now → r.page.view ≡ view.now
            → rising (names_of view.now) ≡ true
            → IfOk result (λ asked. asked ≡ carry_on r.cause module_language p r) }
        ensures sayable { IfOk result IsSayable }
    {
        match &self.cause {
            Some(cause) => abort_message(cause),
            None => self.next.request(alloc, view, &self.plan),
        }
    }

    /// What `request` answers, but that where the plan is applied no modules are told. It takes the time of one
    /// name; it fails only where memory runs out.
    pub fn asked(&self, alloc: Global) -> Result<ClientMsg, AllocError>
        ensures { (r : Runtime) (p : Plan) → IsUnderWay r p self.now
            → IfOk result (λ asked. asked ≡ untold (carry_on r.cause module_language p r)) }
    {
        match &self.cause {
            Some(cause) => aborted(cause),
            None => self.next.asked(alloc),
        }
    }

    /// Takes out why the plan is given up, where what carries it on tells so.
    pub fn take_cause(&mut self) -> Option<Cause>
        ensures { (r : Runtime) (p : Plan) → IsUnderWay r p self.old
            → is_aborted (carry_on r.cause module_language p r) ≡ true
            → option_map cause_of result ≡ cause_by r.cause module_language p r }
    {
        match self.cause.take() {
            Some(cause) => Some(cause),
            None => self.next.take_cause(),
        }
    }

    /// How many instances the plan makes, where all is fetched; 0 where something is left to be fetched.
    pub fn count(&self) -> usize
        ensures made { (r : Runtime) (p : Plan) → IsUnderWay r p self.now
            → is_applied_told (carry_on r.cause module_language p r) ≡ true
            → result ≡ length (new_names p r) }
        ensures count { result ≡ count_in self.now.next }
    {
        match &self.next {
            Next::Fetch(_) => 0,
            Next::Finish(ready) => ready.names.len(),
        }
    }
}

impl Next {
    // The next fetch, or the end of this plan.
    fn request(&self, alloc: Global, view: &View, plan: &Plan) -> Result<ClientMsg, AllocError>
        ensures request { (r : Runtime) (p : Plan) → IsNext r p self.now → r.page.view ≡ view.now
            → rising (names_of view.now) ≡ true → IsSamePlan p plan.now
            → IfOk result
            (λ asked. asked ≡ fetch_or_finish (next_needed p r) (link_cause module_language p r) p r) }
        ensures sayable { IfOk result IsSayable }
    {
        match self {
            Next::Fetch(name) => Ok(ClientMsg::Fetch {
                path: copy_name(name)?,
            }),
            Next::Finish(ready) => ready.request(alloc, view, plan),
        }
    }

    // The next fetch, or the end of the plan, with no modules told.
    fn asked(&self, alloc: Global) -> Result<ClientMsg, AllocError>
        ensures { (r : Runtime) (p : Plan) → IsNext r p self.now
            → IfOk result
            (λ asked. asked ≡ untold (fetch_or_finish (next_needed p r) (link_cause module_language p r) p r)) }
    {
        match self {
            Next::Fetch(name) => Ok(ClientMsg::Fetch {
                path: copy_name(name)?,
            }),
            Next::Finish(ready) => ready.asked(alloc),
        }
    }

    // The import that isn't exported, where all is fetched.
    fn take_cause(&mut self) -> Option<Cause>
        ensures { (r : Runtime) (p : Plan) → IsNext r p self.old
            → is_aborted (fetch_or_finish (next_needed p r) (link_cause module_language p r) p r) ≡ true
            → option_map cause_of result ≡ link_cause module_language p r }
    {
        match self {
            Next::Fetch(_) => None,
            Next::Finish(ready) => ready.link.take(),
        }
    }
}

impl Ready {
    // The plan is given up where a new instance can't be linked, else it is applied.
    fn request(&self, alloc: Global, view: &View, plan: &Plan) -> Result<ClientMsg, AllocError>
        ensures request { (r : Runtime) (p : Plan) → IsReady r p self.now → r.page.view ≡ view.now
            → rising (names_of view.now) ≡ true → IsSamePlan p plan.now
            → IfOk result (λ asked. asked ≡ apply_or_abort (link_cause module_language p r) p r) }
        ensures sayable { IfOk result IsSayable }
    {
        match &self.link {
            Some(cause) => abort_message(cause),
            None => Ok(ClientMsg::Applied {
                table: self.table(alloc, view, plan)?,
            }),
        }
    }

    // The same, with no modules told.
    fn asked(&self, alloc: Global) -> Result<ClientMsg, AllocError>
        ensures { (r : Runtime) (p : Plan) → IsReady r p self.now
            → IfOk result (λ asked. asked ≡ untold (apply_or_abort (link_cause module_language p r) p r)) }
    {
        match &self.link {
            Some(cause) => aborted(cause),
            None => Ok(ClientMsg::Applied {
                table: no_table(alloc)?,
            }),
        }
    }

    // The table of the modules that the page then has.
    fn table(&self, alloc: Global, view: &View, plan: &Plan) -> Result<Table, AllocError>
        ensures { (r : Runtime) (p : Plan) → IsReady r p self.now → r.page.view ≡ view.now
            → rising (names_of view.now) ≡ true → IsSamePlan p plan.now
            → IfOk result (λ table. table ≡ table_of (new_view r.roots p r.page.view)) }
    {
        match &self.modules {
            Modules::Anew(made) => table_of(alloc, made),
            Modules::Renewed => renewed_table(alloc, plan, view, &self.names),
        }
    }
}

// The message that a plan was given up, which tells no modules.
fn aborted(cause: &Cause) -> Result<ClientMsg, AllocError>
    ensures { IfOk result (λ asked. asked ≡ untold (abort_message (cause_of cause.now))) }
{
    abort_message(cause)
}

// The table of no modules.
fn no_table(alloc: Global) -> Result<Table, AllocError>
    ensures { IfOk result (λ table. table ≡ []) }
{
    match Table::of(Vec::new(alloc)) {
        Some(table) => Ok(table),
        None => Err(AllocError),
    }
}
