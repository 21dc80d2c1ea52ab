// What a client's request is answered.
use core_model::Refusal;
use update_msgs::ServerMsg;

/// The answer to a request of a client.
#[derive(Drop)]
pub enum Answer {
    /// The client is told this.
    To(ServerMsg),
    /// The request is refused; nothing has changed.
    Refused(Refusal),
}
