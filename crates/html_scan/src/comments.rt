// Comments, and what is read as one.
ghost use Rattle.std.specs.Prelude.{◌≡◌, ◌≤◌, length};
ghost use Rattle.html_scan.specs.CommentEnds.{behind, behind_bang, behind_dash, comment_end, ends, may_end};

use crate::bytes::byte_at;

/// How far the reading of a comment is.
#[derive(Clone, Copy, PartialEq)]
enum Reading {
    /// Behind its `<!--`.
    Start,
    /// Behind its `<!---`.
    StartDash,
    /// Where any byte may come.
    Text,
    /// Behind a `-`.
    Dash,
    /// Behind two of them or more.
    Dashes,
    /// Behind a `--!`.
    Bang,
}

impl Reading {
    /// Whether a `>` ends the comment here.
    fn may_end(self) -> bool
        ensures same { result ≡ may_end self }
    {
        match self {
            Reading::Start | Reading::StartDash | Reading::Dashes | Reading::Bang => true,
            Reading::Text | Reading::Dash => false,
        }
    }

    /// Whether a byte ends the comment here.
    fn ends(self, byte: u8) -> bool
        ensures same { result ≡ ends self byte }
    {
        byte == b'>' && self.may_end()
    }

    /// How far it is behind a byte.
    fn behind(self, byte: u8) -> Reading
        ensures same { result ≡ behind self byte }
    {
        match byte {
            b'-' => self.behind_dash(),
            b'!' => self.behind_bang(),
            _ => Reading::Text,
        }
    }

    /// How far it is behind a `-`.
    fn behind_dash(self) -> Reading
        ensures same { result ≡ behind_dash self }
    {
        match self {
            Reading::Start => Reading::StartDash,
            Reading::StartDash | Reading::Dash | Reading::Dashes => Reading::Dashes,
            Reading::Text | Reading::Bang => Reading::Dash,
        }
    }

    /// How far it is behind a `!`.
    fn behind_bang(self) -> Reading
        ensures same { result ≡ behind_bang self }
    {
        match self {
            Reading::Dashes => Reading::Bang,
            _ => Reading::Text,
        }
    }
}

/// Where the comment ends whose `<!--` ends at a place; with the text where it isn't closed.
#[tactic(auto, using(crate::proofs::CommentEnds::begun, crate::proofs::CommentEnds::turned_on, crate::proofs::CommentEnds::ended, crate::proofs::CommentEnds::run_out))]
pub(crate) fn comment_end(text: &[u8], from: usize) -> usize
    requires within { from ≤ length text.now }
    ensures comment { result ≡ comment_end text.now from }
    ensures from { from ≤ result }
    ensures to { result ≤ length text.now }
{
    let mut reading = Reading::Start;
    for at in from..text.len() {
        if reading.ends(text[at]) {
            return at + 1;
        }
        reading = reading.behind(text[at]);
    }
    text.len()
}

/// Where something ends that is read as a comment: behind the first `>` from a place on, or with the text.
pub(crate) fn bogus_comment_end(text: &[u8], from: usize) -> usize
    requires within { from ≤ length text.now }
    ensures from { from ≤ result }
    ensures to { result ≤ length text.now }
{
    for at in from..text.len() {
        if text[at] == b'>' {
            return at + 1;
        }
    }
    text.len()
}

/// Where the CDATA section ends whose content begins at a place: behind its `]]>`, or with the text.
pub(crate) fn character_data_end(text: &[u8], from: usize) -> usize
    requires within { from ≤ length text.now }
    ensures from { from ≤ result }
    ensures to { result ≤ length text.now }
{
    for at in from..text.len() {
        if text[at] == b']' && byte_at(text, at + 1) == b']' && byte_at(text, at + 2) == b'>' {
            return at + 3;
        }
    }
    text.len()
}
