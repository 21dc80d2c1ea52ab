// What a page asked, as far as it matters once the answer is there.
ghost use Rattle.std.specs.Prelude.{◌≡◌, IfOk};
ghost use Rattle.live_lines.specs.Asking.{asked_of};

use hmr_types::{ModName, Text};
use std::alloc::AllocError;
use update_msgs::{AbortCause, ClientMsg};

/// What a page asked, as far as it matters once the answer is there.
#[derive(Debug, Drop)]
pub enum Asked {
    /// The first message.
    Hello,
    /// The plan was applied.
    Applied,
    /// The plan was given up, with the cause that the message has.
    Aborted {
        cause: AbortCause,
        path: ModName,
        from: Option<ModName>,
        name: Option<Text>,
    },
    /// The last message.
    Bye,
    /// Any other message.
    Other,
}

impl Asked {
    /// What this message asks. It takes memory only for a plan that was given up, and fails only where that
    /// runs out.
    pub fn of(msg: &ClientMsg) -> Result<Asked, AllocError>
        ensures { IfOk result (λ asked. asked ≡ asked_of msg.now) }
    {
        match msg {
            ClientMsg::Hello { .. } => Ok(Asked::Hello),
            ClientMsg::Applied { .. } => Ok(Asked::Applied),
            ClientMsg::Aborted {
                cause,
                path,
                from,
                name,
            } => Ok(Asked::Aborted {
                cause: *cause,
                path: path.clone()?,
                from: from.clone()?,
                name: name.clone()?,
            }),
            ClientMsg::Bye => Ok(Asked::Bye),
            ClientMsg::Ask | ClientMsg::Fetch { .. } | ClientMsg::Invalidate { .. } => {
                Ok(Asked::Other)
            }
        }
    }
}
