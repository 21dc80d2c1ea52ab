// Why bytes are no message.
use hmr_types::Text;
use std::alloc::AllocError;

/// Why bytes don't read as a message.
#[derive(Debug, Drop, Eq, PartialEq)]
pub enum MsgFault {
    /// The bytes aren't UTF-8, or have no JSON reading.
    NotJson,
    /// The value isn't an object, or its `type` isn't a text of the table for that side.
    NoType,
    /// The first key, in the order of the message's table, that is missing or has a wrong value.
    BadField(Text),
    /// The least key that the message doesn't have.
    ExtraField(Text),
    /// There is no memory.
    NoMemory,
}

impl From<AllocError> for MsgFault {
    ghost use Rattle.std.specs.Prelude.{◌≡◌};
    ghost use Rattle.message_json.specs.declared.fault.MsgFault.TheVariants.{NoMemory};

    ghost from_gives = { λ _ e. e ≡ NoMemory };

    fn from(_e: AllocError) -> MsgFault {
        MsgFault::NoMemory
    }
}
