// The desk: what answers the messages of one client.
ghost use Rattle.std.specs.Prelude.{◌≡◌, ◌≤◌, ◌||◌, ℕ, Bool, IfOk, List, Option};
ghost use Rattle.hmr_types.specs.declared.limits.TheConstants.{MESSAGE_BYTES};
ghost use Rattle.update_msgs.specs.declared.message.ClientMsg.{ClientMsg};
ghost use Rattle.update_msgs.specs.declared.message.ServerMsg.{ServerMsg};
ghost use Rattle.update_msgs.specs.Desk.{bytes_of, is_full, told_after};
ghost use Rattle.update_msgs.specs.Writable.{IsFormat, IsWritable};

use crate::{ClientMsg, ServerMsg};
use std::alloc::AllocError;

/// Why a desk gives no answer.
#[derive(Clone, Copy, Debug, PartialEq, Eq)]
pub enum HubStop {
    /// No further event has a place in the transcript.
    TranscriptFull,
    /// There is no memory for the answer.
    NoMemory,
}

impl From<AllocError> for HubStop {
    ghost use Rattle.update_msgs.specs.declared.desk.HubStop.TheVariants.{NoMemory};

    ghost from_gives = { λ _ stop. stop ≡ NoMemory };

    fn from(_refused: AllocError) -> HubStop {
        HubStop::NoMemory
    }
}

/// What answers the messages of one client. `full` says whether a message was answered by
/// [`HubStop::TranscriptFull`] so far. `told` has the messages with their answers so far, in order,
/// where the desk tells them. `stays` is what each answer keeps of the desk, as of which hub it is: it
/// holds of a desk and itself, and over one answer after another.
pub trait Desk {
    ghost full: { Self → Bool };

    ghost told: { Self → Option (List (ClientMsg × ServerMsg)) };

    ghost stays: { Self → Self → Type 0 };

    /// Answers a message whose names and texts have at most 16,777,216 bytes together. After
    /// [`HubStop::NoMemory`] the desk is as it was, but for the memory of its own. Each answer can be
    /// written in both formats.
    fn answer(&mut self, msg: ClientMsg) -> Result<ServerMsg, HubStop>
        requires size { bytes_of msg ≤ MESSAGE_BYTES }
        ensures full { full self.new ≡ (full self.old || is_full result) }
        ensures written { IfOk result (λ m. (format : ℕ) → IsFormat format → IsWritable format m) }
        ensures told { told self.new ≡ told_after (told self.old) msg result }
        ensures stays { stays self.old self.new };

    ghost same: { (desk : Self) → stays desk desk };

    ghost then: { (desk next last : Self) → stays desk next → stays next last → stays desk last };
}
