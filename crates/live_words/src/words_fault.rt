// What is wrong with the words.
ghost use Rattle.std.specs.Prelude.{◌≡◌};

use crate::DevOption;
use hmr_types::Text;
use std::alloc::AllocError;

/// What is wrong with the words; the first thing in their order, and behind it what is missing.
#[derive(Debug, Drop)]
pub enum WordsFault {
    /// This is no option; the nearest one.
    Unknown { word: Text, nearest: DevOption },
    /// The option stands twice.
    Twice(DevOption),
    /// The option takes a value, and none stands behind it.
    NoValue(DevOption),
    /// The option takes no value, and one stands behind it.
    Valued(DevOption),
    /// The value of the option isn't a number in its range.
    BadNumber { option: DevOption, word: Text },
    /// No folder was named.
    NoFolder,
    /// This is no name of a module.
    BadRoot(Text),
    /// Two roots are equal.
    RootTwice,
    /// There are more than 16 roots.
    TooManyRoots,
    /// Memory ran out.
    NoMemory,
}

impl From<AllocError> for WordsFault {
    ghost use Rattle.live_words.specs.declared.words_fault.WordsFault.TheVariants.{NoMemory};

    ghost from_gives = { λ _ fault. fault ≡ NoMemory };

    fn from(_refused: AllocError) -> WordsFault {
        WordsFault::NoMemory
    }
}
