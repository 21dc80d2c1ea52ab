// A client's message as an event of the core.
ghost use Rattle.std.specs.Prelude.{◌≡◌};
ghost use Rattle.core_model.specs.Exchange as model;
ghost use Rattle.events_and_replies.specs.Said.{event_of};
ghost use Rattle.client_exchange.specs.Messages.{is_bye, is_hello};

use events_and_replies::Event;
use hmr_types::ClientId;
use update_msgs::ClientMsg;

/// The event that a message of this client is; a client that says hello has no number yet, and the event
/// has none. It takes constant time.
pub fn event_of(client: ClientId, msg: ClientMsg) -> Event
    ensures { event_of result ≡ model.event_of client msg }
{
    match msg {
        ClientMsg::Hello { format: _, roots } => Event::Connect(roots.into_vec()),
        ClientMsg::Ask => Event::Ask(client),
        ClientMsg::Fetch { path } => Event::Fetch(client, path),
        ClientMsg::Applied { table } => Event::Applied(client, table),
        ClientMsg::Aborted {
            cause: _,
            path: _,
            from: _,
            name: _,
        } => Event::Aborted(client),
        ClientMsg::Invalidate {
            path,
            version,
            message: _,
        } => Event::Invalidate(client, path, version),
        ClientMsg::Bye => Event::Disconnect(client),
    }
}

/// Whether the message is a client's first.
pub fn is_hello(msg: &ClientMsg) -> bool
    ensures { result ≡ is_hello msg.now }
{
    matches!(
        msg,
        ClientMsg::Hello {
            format: _,
            roots: _,
        },
    )
}

/// Whether the message is a client's last.
pub fn is_bye(msg: &ClientMsg) -> bool
    ensures { result ≡ is_bye msg.now }
{
    matches!(msg, ClientMsg::Bye)
}
