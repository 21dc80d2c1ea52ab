// What a message is to one who waits.
ghost use Rattle.std.specs.Prelude.{◌≡◌, ◌↔◌, true};
ghost use Rattle.update_msgs.specs.declared.message.ClientMsg.TheVariants.{Ask};
ghost use Rattle.update_msgs.specs.declared.message.ServerMsg.TheVariants.{Idle};

use update_msgs::{ClientMsg, ServerMsg};

/// Whether a page asks what there is to do.
pub(crate) fn is_ask(msg: &ClientMsg) -> bool
    ensures { result ≡ true ↔ msg.now ≡ Ask }
{
    matches!(msg, ClientMsg::Ask)
}

/// Whether other pages may have something to do after it: a page comes, goes, or has invalidated a module.
pub(crate) fn is_change(msg: &ClientMsg) -> bool {
    matches!(
        msg,
        ClientMsg::Hello {
            format: _,
            roots: _,
        } | ClientMsg::Invalidate {
            path: _,
            version: _,
            message: _,
        } | ClientMsg::Bye,
    )
}

/// Whether there is nothing to do.
pub(crate) fn is_idle(msg: &ServerMsg) -> bool
    ensures { result ≡ true ↔ msg.now ≡ Idle }
{
    matches!(msg, ServerMsg::Idle)
}
