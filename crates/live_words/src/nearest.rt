// The option that is nearest to a word.
ghost use Rattle.std.specs.Prelude.{◌≡◌, ◌≤◌, ◌∷◌, [], All, IfOk};
ghost use Rattle.live_words.specs.Options.{distance, options};

use crate::DevOption;
use std::alloc::{AllocError, Global};
use strsim::levenshtein;

/// The option to which the fewest changes of a character lead from a word, and of such the first in the order
/// of the help. It takes time in proportion to the characters of the word.
pub fn nearest_option(alloc: Global, word: &str) -> Result<DevOption, AllocError>
    ensures { IfOk result (λ nearest. All (λ o. distance word.now nearest ≤ distance word.now o) options) }
{
    let best = DevOption::Port;
    let best = nearer(alloc, word, best, DevOption::StrictPort)?;
    let best = nearer(alloc, word, best, DevOption::Workers)?;
    let best = nearer(alloc, word, best, DevOption::Json)?;
    let best = nearer(alloc, word, best, DevOption::Record)?;
    nearer(alloc, word, best, DevOption::Help)
}

// The nearer one of two options, and where they are as near the first.
fn nearer(
    alloc: Global,
    word: &str,
    first: DevOption,
    second: DevOption,
) -> Result<DevOption, AllocError>
    ensures first { IfOk result (λ o. distance word.now o ≤ distance word.now first) }
    ensures second { IfOk result (λ o. distance word.now o ≤ distance word.now second) }
{
    let one = levenshtein(alloc, word, first.as_str())?;
    let two = levenshtein(alloc, word, second.as_str())?;
    if two < one { Ok(second) } else { Ok(first) }
}
