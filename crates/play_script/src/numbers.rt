// The number that a word is.
ghost use Rattle.std.specs.Prelude.{◌≡◌, ◌≤◌, IfSome};
ghost use Rattle.std.specs.List.{list_all};
ghost use Rattle.play_script.specs.Script.{digits_value, is_digit, number_of, up_to};

/// The number that a word is, from 1 to the most: digits, of which the first isn't 0. None where it is no such
/// number. The time is linear in the word.
pub fn number_of(word: &[u8], most: u64) -> Option<u64>
    ensures number { result ≡ number_of most word.now }
    ensures range { IfSome result (λ n. n ≤ most) }
{
    match word {
        [b'1'..=b'9', rest @ ..] if are_digits(rest) => value_of(word, most),
        _ => None,
    }
}

fn are_digits(bytes: &[u8]) -> bool
    ensures { result ≡ list_all is_digit bytes.now }
{
    bytes.iter().all(|b| b.is_ascii_digit())
}

fn value_of(digits: &[u8], most: u64) -> Option<u64>
    ensures number { result ≡ up_to most (digits_value digits.now) }
    ensures range { IfSome result (λ n. n ≤ most) }
{
    let mut value: u64 = 0;
    for digit in digits {
        let next = u128::from(value) * 10 + u128::from(digit.saturating_sub(b'0'));
        if next > u128::from(most) {
            return None;
        }
        value = next as u64;
    }
    Some(value)
}
