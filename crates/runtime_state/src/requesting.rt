// The request that stands.
ghost use Rattle.std.specs.Prelude.{◌≡◌, map, IfOk};
ghost use Rattle.std.specs.List.{All};
ghost use Rattle.update_msgs.specs.Writable.{IsFormat, IsSayable, IsVersion};
ghost use Rattle.update_msgs.specs.declared.message.ClientMsg.TheVariants.{Hello};
ghost use Rattle.client_model.specs.Past.{Past, runtime_after};
ghost use Rattle.client_model.specs.Requesting.{ask_or_invalidate, request};
ghost use Rattle.client_model.specs.Runtime.{Opening, Runtime};
ghost use Rattle.module_language.specs.ModuleLanguage.{module_language};
ghost use Rattle.page_state.specs.Standing.{invalidation_as};
ghost use Rattle.client_plan.specs.UnderWay.{untold};
ghost use Rattle.runtime_state.specs.Standing.{Keeps, StandsFor};

use crate::runtime::HotRuntime;
use hmr_types::{Sequence, Text};
use module_graph::{copy_name, copy_of};
use page_state::Invalidation;
use std::alloc::AllocError;
use update_msgs::ClientMsg;

impl<F> HotRuntime<F> {
    /// The request that stands: what the client asks or tells next. It can be written.
    pub fn request(&self) -> Result<ClientMsg, AllocError>
        ensures request { (opening : Opening) (past : Past) → StandsFor opening past self.now
            → IfOk result
            (λ asked. asked ≡ request module_language (runtime_after module_language opening past)) }
        ensures sayable { (opening : Opening) (past : Past) → StandsFor opening past self.now
            → IfOk result IsSayable }
    {
        if self.page.client == 0 {
            return self.hello();
        }
        match &self.plan {
            Some(plan) => plan.request(self.allocator(), &self.view),
            None => ask_or_invalidate(&self.page.unsent),
        }
    }

    /// The request that stands, but that where a plan is applied no modules are told.
    pub fn asked(&self) -> Result<ClientMsg, AllocError>
        ensures { (r : Runtime) → Keeps r self.now
            → IfOk result (λ asked. asked ≡ untold (request module_language r)) }
    {
        if self.page.client == 0 {
            return self.hello();
        }
        match &self.plan {
            Some(plan) => plan.asked(self.allocator()),
            None => ask_or_invalidate(&self.page.unsent),
        }
    }

    // The first request: the format that the client speaks, and the roots that it names.
    fn hello(&self) -> Result<ClientMsg, AllocError>
        ensures hello { IfOk result (λ asked. asked ≡ Hello self.now.format self.now.named) }
        ensures sayable { IsFormat self.now.format → IfOk result IsSayable }
    {
        let named = copy_of(self.allocator(), self.named.as_slice())?;
        Ok(ClientMsg::Hello {
            format: self.format,
            roots: Sequence::from_vec(named),
        })
    }
}

// The first invalidation that is unsent, or what is there to do.
fn ask_or_invalidate(unsent: &[Invalidation]) -> Result<ClientMsg, AllocError>
    ensures request { IfOk result (λ asked. asked ≡ ask_or_invalidate (map invalidation_as unsent.now)) }
    ensures sayable { All (λ i. IsVersion i.version) unsent.now → IfOk result IsSayable }
{
    match unsent.first() {
        None => Ok(ClientMsg::Ask),
        Some(first) => Ok(ClientMsg::Invalidate {
            path: copy_name(&first.name)?,
            version: first.version,
            message: copy_text(&first.message)?,
        }),
    }
}

fn copy_text(text: &Text) -> Result<Text, AllocError>
    ensures { IfOk result (λ copy. copy ≡ text.now) }
{
    text.clone()
}
