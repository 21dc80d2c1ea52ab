// Why the command stopped before its end.
ghost use Rattle.std.specs.Prelude.{◌≡◌};

use command_words::WordsFault;
use hmr_base::{ReadFault, WriteFault};
use std::alloc::AllocError;

/// Why the command stopped before its end.
#[derive(Drop)]
pub enum Stop {
    /// The words are no command.
    NotACommand,
    /// The input has more bytes than a script may have.
    TooLong,
    /// The input has more bytes than a module text may have.
    TextTooLong,
    /// The input has more bytes than a record may have.
    RecordTooLong,
    /// The input is no script. This is the line of its first fault.
    Faulty(Vec<u8>),
    /// The input failed.
    Unread,
    /// The output failed.
    Unwritten,
    /// The events of the core have no places in a transcript.
    TranscriptFull,
    /// A client would have made too many instances.
    InstancesFull,
    /// Memory ran out.
    NoMemory,
}

impl From<WordsFault> for Stop {
    ghost use Rattle.text_commands.specs.Ends.{stop_of_words};

    ghost from_gives = { λ fault stop. stop ≡ stop_of_words fault };

    fn from(fault: WordsFault) -> Self {
        match fault {
            WordsFault::NotACommand => Stop::NotACommand,
            WordsFault::NoMemory => Stop::NoMemory,
        }
    }
}

/// The stop for a script that wasn't read.
impl From<ReadFault> for Stop {
    ghost use Rattle.text_commands.specs.Ends.{stop_of_read};

    ghost from_gives = { λ fault stop. stop ≡ stop_of_read fault };

    fn from(fault: ReadFault) -> Self {
        match fault {
            ReadFault::Failed => Stop::Unread,
            ReadFault::TooLong => Stop::TooLong,
            ReadFault::NoMemory => Stop::NoMemory,
        }
    }
}

impl From<WriteFault> for Stop {
    ghost use Rattle.text_commands.specs.declared.stop.Stop.TheVariants.{Unwritten};

    ghost from_gives = { λ _ stop. stop ≡ Unwritten };

    fn from(_: WriteFault) -> Self {
        Stop::Unwritten
    }
}

impl From<AllocError> for Stop {
    ghost use Rattle.text_commands.specs.declared.stop.Stop.TheVariants.{NoMemory};

    ghost from_gives = { λ _ stop. stop ≡ NoMemory };

    fn from(_: AllocError) -> Self {
        Stop::NoMemory
    }
}
