// The word of a cause for which a plan was given up.
ghost use Rattle.std.specs.Prelude.{◌≡◌};
ghost use Rattle.message_text.specs.Words.{abort_word};

use update_msgs::AbortCause;

/// The word of a cause.
pub(crate) fn abort_str(cause: AbortCause) -> &'static str
    ensures { result.now ≡ abort_word cause }
{
    match cause {
        AbortCause::Missing => "missing",
        AbortCause::Broken => "broken",
        AbortCause::Link => "link",
    }
}
