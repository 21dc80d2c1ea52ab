// Why a client's command stopped, and which stop each ending of a session is.
ghost use Rattle.std.specs.Prelude.{◌≡◌, ◌≢◌, Err};
ghost use Rattle.sessions.specs.declared.ended.Ended.{Ended};
ghost use Rattle.join_command.specs.Joining.{ends_as};

use client_sessions::Ended;
use hmr_base::WriteFault;
use std::alloc::AllocError;
use transport::OutFault;

/// Why [`join`](crate::join) stopped otherwise than by a bye or a server that closed.
#[derive(Clone, Copy, Debug, PartialEq, Eq)]
pub enum JoinStop {
    /// The output failed.
    Unwritten,
    /// The net failed, or the end that it gave.
    NetFailed,
    /// An answer would bring the client's page more instances than it may have.
    InstancesFull,
    /// What the server sent is no message, or no answer to the request.
    BadAnswer,
    /// Memory ran out.
    NoMemory,
}

impl From<OutFault> for JoinStop {
    ghost use Rattle.join_command.specs.Joining.{stop_at};

    ghost from_gives = { λ fault stop. stop ≡ stop_at fault };

    fn from(fault: OutFault) -> Self {
        match fault {
            OutFault::Failed => JoinStop::NetFailed,
            OutFault::NoMemory => JoinStop::NoMemory,
        }
    }
}

impl From<WriteFault> for JoinStop {
    ghost use Rattle.join_command.specs.declared.stop.JoinStop.TheVariants.{Unwritten};

    ghost from_gives = { λ _ stop. stop ≡ Unwritten };

    fn from(_: WriteFault) -> Self {
        JoinStop::Unwritten
    }
}

impl From<AllocError> for JoinStop {
    ghost use Rattle.join_command.specs.declared.stop.JoinStop.TheVariants.{NoMemory};

    ghost from_gives = { λ _ stop. stop ≡ NoMemory };

    fn from(_: AllocError) -> Self {
        JoinStop::NoMemory
    }
}

/// How the command ends where the session ended so.
pub(crate) fn ends_as(ended: Ended) -> Result<(), JoinStop>
    ensures is { result ≡ ends_as ended }
    ensures net { result ≡ Err JoinStop.NetFailed → ended ≡ Ended.LinkFault }
    ensures written { result ≢ Err JoinStop.Unwritten }
{
    match ended {
        Ended::Closed => Ok(()),
        Ended::LinkFault => Err(JoinStop::NetFailed),
        Ended::BadMessage(_) | Ended::Unexpected { .. } => Err(JoinStop::BadAnswer),
        Ended::InstancesFull => Err(JoinStop::InstancesFull),
        Ended::Stopped | Ended::NoMemory => Err(JoinStop::NoMemory),
    }
}
