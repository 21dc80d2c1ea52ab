// What the core says to a client that comes.
ghost use Rattle.std.specs.Prelude.{◌≡◌};
ghost use Rattle.world_parts.specs.Greetings.{greeting_in};

use core_model::Refusal;
use events_and_replies::Reply;
use hmr_types::{ClientId, ModName, Sequence};
use update_msgs::ServerMsg;

/// What the core says to a client that comes.
#[derive(Drop)]
pub enum Greeting {
    /// The client gets this number, and its page these roots.
    Taken {
        client: ClientId,
        roots: Sequence<ModName>,
    },
    /// The client isn't taken, since its roots are bad.
    BadRoots,
    /// The client isn't taken.
    Full,
}

/// What a reply says to a client that comes. It takes constant time.
pub fn said_to_newcomer(reply: Reply) -> Greeting
    ensures { result ≡ greeting_in reply }
{
    match reply {
        Reply::To(ServerMsg::Connected { client, roots }) => Greeting::Taken { client, roots },
        Reply::Refused(Refusal::BadRoots) => Greeting::BadRoots,
        _ => Greeting::Full,
    }
}
