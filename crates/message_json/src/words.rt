// The words of messages as they are read: the cause of a plan that was given up, the cause of a reload, the
// kind of a fault.
ghost use Rattle.std.specs.Prelude.{◌≡◌};
ghost use Rattle.word_texts.specs.Words.{cause_word, fault_word};
ghost use Rattle.message_text.specs.Words.{abort_word};
ghost use Rattle.message_json.specs.Words.{abort_causes, fault_kinds, is_link, reload_causes, spelled};

use hmr_types::{FaultWord, ReloadCause};
use update_msgs::AbortCause;

/// Whether an importer's link is the cause.
pub(crate) fn is_link(cause: AbortCause) -> bool
    ensures { result ≡ is_link cause }
{
    match cause {
        AbortCause::Missing => false,
        AbortCause::Broken => false,
        AbortCause::Link => true,
    }
}

/// The cause that a word names.
#[tactic(auto, unfolding(crate::specs::Words::spelled))]
pub(crate) fn abort_of(word: &str) -> Option<AbortCause>
    ensures { result ≡ spelled abort_word abort_causes word.now }
{
    match word {
        "missing" => Some(AbortCause::Missing),
        "broken" => Some(AbortCause::Broken),
        "link" => Some(AbortCause::Link),
        _ => None,
    }
}

/// The cause of a reload that a word names.
#[tactic(auto, unfolding(crate::specs::Words::spelled))]
pub(crate) fn reload_of(word: &str) -> Option<ReloadCause>
    ensures { result ≡ spelled cause_word reload_causes word.now }
{
    match word {
        "root" => Some(ReloadCause::Root),
        "declined" => Some(ReloadCause::Declined),
        _ => None,
    }
}

/// The kind of a fault that a word names.
#[tactic(auto, unfolding(crate::specs::Words::spelled))]
pub(crate) fn fault_of(word: &str) -> Option<FaultWord>
    ensures { result ≡ spelled fault_word fault_kinds word.now }
{
    match word {
        "bad-byte" => Some(FaultWord::BadByte),
        "open-string" => Some(FaultWord::OpenString),
        "open-comment" => Some(FaultWord::OpenComment),
        "bad-escape" => Some(FaultWord::BadEscape),
        "number-too-large" => Some(FaultWord::NumberTooLarge),
        "too-many-tokens" => Some(FaultWord::TooManyTokens),
        "unexpected" => Some(FaultWord::Unexpected),
        "too-deep" => Some(FaultWord::TooDeep),
        "duplicate-name" => Some(FaultWord::DuplicateName),
        "not-utf8" => Some(FaultWord::NotUtf8),
        "not-assignable" => Some(FaultWord::NotAssignable),
        "specifier-bare" => Some(FaultWord::SpecifierBare),
        "specifier-climbs" => Some(FaultWord::SpecifierClimbs),
        "specifier-empty" => Some(FaultWord::SpecifierEmpty),
        "specifier-too-long" => Some(FaultWord::SpecifierTooLong),
        "specifier-bad-segment" => Some(FaultWord::SpecifierBadSegment),
        "too-many-imports" => Some(FaultWord::TooManyImports),
        _ => None,
    }
}
