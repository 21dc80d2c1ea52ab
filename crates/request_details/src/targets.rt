// The parts of a target: a path, and behind its first question mark a query.
ghost use Rattle.std.specs.Prelude.{◌≡◌};
ghost use Rattle.http_heads.specs.Head.{path_of};
ghost use Rattle.request_details.specs.Details.{before_hash, behind_mark, query_of};

/// The target up to its first question mark.
pub fn path_of(target: &[u8]) -> &[u8]
    ensures { result.now ≡ path_of target.now }
{
    for at in 0..target.len() {
        if target[at] == b'?' {
            return &target[..at];
        }
    }
    target
}

/// What stands behind the first question mark of a target, up to a `#` or its end; nothing where there is no
/// question mark.
pub fn query_of(target: &[u8]) -> &[u8]
    ensures { result.now ≡ query_of target.now }
{
    before_hash(behind_mark(target))
}

fn behind_mark(target: &[u8]) -> &[u8]
    ensures { result.now ≡ behind_mark target.now }
{
    for at in 0..target.len() {
        if target[at] == b'?' {
            return &target[at + 1..];
        }
    }
    &target[target.len()..]
}

fn before_hash(text: &[u8]) -> &[u8]
    ensures { result.now ≡ before_hash text.now }
{
    for at in 0..text.len() {
        if text[at] == b'#' {
            return &text[..at];
        }
    }
    text
}
