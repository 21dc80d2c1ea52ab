// Why the editor stops.
ghost use Rattle.std.specs.Prelude.{◌≡◌};

use std::alloc::AllocError;
use update_msgs::HubStop;

/// Why the editor stopped. The first three are refusals of an edit, which is an entry of the transcript.
#[derive(Clone, Copy, Debug, PartialEq, Eq)]
pub enum EditStop {
    /// A text has more than 131,072 bytes.
    Text,
    /// The name would be one more than 8,192.
    Names,
    /// The texts would have more than 32 MiB together.
    Sources,
    /// The transcript has no place for the edit or the result.
    Full,
    /// There is no memory.
    NoMemory,
}

impl From<AllocError> for EditStop {
    ghost use Rattle.hub_editor.specs.declared.stop.EditStop.TheVariants.{NoMemory};

    ghost from_gives = { λ _ stop. stop ≡ NoMemory };

    fn from(_refused: AllocError) -> EditStop {
        EditStop::NoMemory
    }
}

impl From<HubStop> for EditStop {
    ghost use Rattle.update_msgs.specs.declared.desk.HubStop.TheVariants as hub;
    ghost use Rattle.hub_editor.specs.declared.stop.EditStop.TheVariants.{Full, NoMemory};

    ghost from_gives = { λ stopped stop.
        (stopped ≡ hub.TranscriptFull → stop ≡ Full) × (stopped ≡ hub.NoMemory → stop ≡ NoMemory) };

    fn from(stopped: HubStop) -> EditStop {
        match stopped {
            HubStop::TranscriptFull => EditStop::Full,
            HubStop::NoMemory => EditStop::NoMemory,
        }
    }
}
