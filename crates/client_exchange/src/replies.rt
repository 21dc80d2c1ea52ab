// The core's reply as a message to the client.
ghost use Rattle.std.specs.Prelude.{◌≡◌, None};
ghost use Rattle.core_model.specs.Exchange.{refusal_message};
ghost use Rattle.update_msgs.specs.declared.message.ServerMsg.TheVariants.{Refused};
ghost use Rattle.client_exchange.specs.Replies.{client_after, message_in};

use core_model::Refusal;
use events_and_replies::Reply;
use hmr_types::ClientId;
use update_msgs::ServerMsg;

/// The message that a reply is. It is None exactly for the replies to edits and to results, which are no
/// client's.
pub fn message_in(reply: Reply) -> Option<ServerMsg>
    ensures { result ≡ message_in reply }
{
    match reply {
        Reply::Edited(_) | Reply::EditRefused(_) | Reply::Settled(_) => None,
        Reply::To(msg) => Some(msg),
        Reply::Refused(refusal) => Some(refusal_message(refusal)),
        Reply::Gone => Some(ServerMsg::Done),
    }
}

/// The client that a desk has after this answer to its message, 0 for none: the one that was connected, else
/// the one before; and none after a bye.
pub fn client_after(client: ClientId, bye: bool, answer: &ServerMsg) -> ClientId
    ensures { result ≡ client_after client bye answer.now }
{
    if bye {
        return 0;
    }
    match answer {
        ServerMsg::Connected {
            client: connected,
            roots: _,
        } => *connected,
        _ => client,
    }
}

/// The message that tells a refusal: its number, from 1 to 7, with what the refusal names.
pub fn refusal_message(refusal: Refusal) -> ServerMsg
    ensures { result ≡ refusal_message refusal }
{
    match refusal {
        Refusal::UnknownClient => numbered(1),
        Refusal::TooManyClients => numbered(2),
        Refusal::OutOfTurn => numbered(3),
        Refusal::Mismatch { name, told, kept } => ServerMsg::Refused {
            code: 4,
            path: Some(name),
            told: Some(told),
            kept: Some(kept),
        },
        Refusal::Unfetched(name) => ServerMsg::Refused {
            code: 5,
            path: Some(name),
            told: None,
            kept: None,
        },
        Refusal::Ignored => numbered(6),
        Refusal::BadRoots => numbered(7),
    }
}

// A refusal that names nothing.
fn numbered(code: u8) -> ServerMsg
    ensures { result ≡ Refused code None None None }
{
    ServerMsg::Refused {
        code,
        path: None,
        told: None,
        kept: None,
    }
}
