// How a session ends, and which ending each fault leads to.
ghost use Rattle.std.specs.Prelude.{◌≡◌};
ghost use Rattle.sessions.specs.declared.ended.Ended.TheVariants.{NoMemory};
ghost use Rattle.sessions.specs.Endings.{ended_at, ended_by, ended_for};

use message_json::MsgFault;
use std::alloc::AllocError;
use transport::OutFault;
use update_msgs::HubStop;

/// How a session ended, of a server or of a client.
#[derive(Debug, Drop, Eq, PartialEq)]
pub enum Ended {
    /// The last message, [`ClientMsg::Bye`](update_msgs::ClientMsg::Bye), was answered, or the peer closed.
    Closed,
    /// The link failed, and its count rose.
    LinkFault,
    /// What was received is no message, by this fault, which is never `NoMemory`.
    BadMessage(MsgFault),
    /// The desk's transcript is full: it answered [`HubStop::TranscriptFull`]. A client never ends so.
    Stopped,
    /// There was no memory.
    NoMemory,
    /// A client received what is no answer to its request: the places of the request and of the answer in
    /// the tables of messages, from 1. A server never ends so.
    Unexpected { wanted: u8, got: u8 },
    /// An answer would bring the client's page more instances than it may have. A server never ends so.
    InstancesFull,
}

impl From<OutFault> for Ended {
    ghost from_gives = { λ fault ended. ended ≡ ended_at fault };

    fn from(fault: OutFault) -> Ended {
        match fault {
            OutFault::Failed => Ended::LinkFault,
            OutFault::NoMemory => Ended::NoMemory,
        }
    }
}

impl From<MsgFault> for Ended {
    ghost from_gives = { λ fault ended. ended ≡ ended_by fault };

    fn from(fault: MsgFault) -> Ended {
        match fault {
            MsgFault::NoMemory => Ended::NoMemory,
            fault => Ended::BadMessage(fault),
        }
    }
}

impl From<HubStop> for Ended {
    ghost from_gives = { λ stop ended. ended ≡ ended_for stop };

    fn from(stop: HubStop) -> Ended {
        match stop {
            HubStop::TranscriptFull => Ended::Stopped,
            HubStop::NoMemory => Ended::NoMemory,
        }
    }
}

impl From<AllocError> for Ended {
    ghost from_gives = { λ _ ended. ended ≡ NoMemory };

    fn from(_refused: AllocError) -> Ended {
        Ended::NoMemory
    }
}
