// Numbers in words.
ghost use Rattle.std.specs.Prelude.{◌≡◌, ◌≤◌, IfSome};
ghost use Rattle.live_words.specs.Words.{InRange};

/// The number that a word is in decimal, where it is in this range; None else.
pub(crate) fn number_in(word: &str, low: u32, high: u32) -> Option<u32>
    ensures { IfSome result (InRange low high) }
{
    match word.parse::<u32>() {
        Ok(number) => {
            if low <= number && number <= high {
                Some(number)
            } else {
                None
            }
        }
        Err(_) => None,
    }
}
