// Places of a text as people count them.
ghost use Rattle.std.specs.Prelude.{◌≡◌, ◌≢◌, ℕ, ◌+◌, ◌-◌, ◌≤◌, ◌<◌, ◌^◌, length, slice_index};
ghost use Rattle.es_scan.specs.Places.{lines_before};

/// A line and a column, as people count them.
#[derive(Clone, Copy, Debug, PartialEq, Eq)]
pub struct Place {
    /// The line, from 1. A line ends behind an LF alone, so CR LF ends one line.
    pub line: u32,
    /// The column, from 1, in bytes.
    pub column: u32,
}

/// The line and column of the byte `at` of a text; `at` may be its length. It takes time linear in
/// `at`.
#[tactic(auto, using(std::proofs::lemmas::List::Sums::count_by_more_yes, std::proofs::lemmas::List::Sums::count_by_more_no))]
pub fn place_of(text: &[u8], at: usize) -> Place
    requires within { at ≤ length text.now }
    requires short { length text.now + 1 < 2 ^ 32 }
    ensures line { result.line ≡ 1 + lines_before text.now at }
    ensures column { (1 ≤ result.column) × (result.column ≤ at + 1) }
    ensures begins { result.column ≤ at → slice_index text.now (at - result.column) ≡ 10 }
    ensures one_line { (k : ℕ) → at < k + result.column → k < at → slice_index text.now k ≢ 10 }
{
    let mut line = 1;
    let mut start = 0;
    for i in 0..at {
        if text[i] == b'\n' {
            line += 1;
            start = i + 1;
        }
    }
    Place {
        line,
        column: (at - start) as u32 + 1,
    }
}
