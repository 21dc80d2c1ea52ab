// Calls of the core, as calls of the core that the definitions have.
ghost use Rattle.std.specs.Prelude.{◌≡◌, IfOk, OnOk};
ghost use Rattle.core_model.specs.Core as model;
ghost use Rattle.core_model.specs.Core.{step};
ghost use Rattle.events_and_replies.specs.Said.{IsWritten, event_of, said};
ghost use Rattle.world_parts.specs.Cores.{IsCore};

use events_and_replies::{Event, Reply};
use server_core::Core;
use std::alloc::{AllocError, Global};

/// Tells the core an event, and gives its reply. [`AllocError`] comes where memory runs out; then no clause
/// says what the core has, and it is to be given up. It costs what the core's step costs.
pub fn tell(core: &mut Core, alloc: Global, event: Event) -> Result<Reply, AllocError>
    ensures stands { (c : model.Core) → IsCore c core.old
        → OnOk result (IsCore (step core.old.roots c (event_of event)).0 core.new) }
    ensures reply { (c : model.Core) → IsCore c core.old
        → IfOk result (λ reply. said (step core.old.roots c (event_of event)).1 ≡ reply) }
    ensures written { (c : model.Core) → IsCore c core.old → IfOk result IsWritten }
    ensures roots { core.new.roots ≡ core.old.roots }
{
    core.step(alloc, event)
}
