// All bytes of a source, up to a limit. The source is read piece by piece until it answers 0; a
// piece that would pass the limit ends the reading, and so does a fault of the source.
ghost use Rattle.std.specs.Prelude.{◌≡◌, ◌<◌, ◌≤◌, length, vec_len, IfOk, OnOk, IfSome, IsErrOf};
ghost use Rattle.std.specs.Io.KnownBytes.{IsAtEnd};
ghost use Rattle.hmr_base.specs.Causes.{Rose};
ghost use Rattle.hmr_base.specs.Pieces.{LeavesEnd};
ghost use Rattle.hmr_base.specs.declared.read.ReadFault.TheVariants.{Failed, NoMemory};

use crate::{Failed, Source};
use std::alloc::{AllocError, Global};

/// Why the bytes of a source weren't read.
#[derive(Clone, Copy, Debug, PartialEq, Eq)]
pub enum ReadFault {
    /// The source failed: its count of faults rose.
    Failed,
    /// More bytes came than the limit allows.
    TooLong,
    /// Memory ran out.
    NoMemory,
}

impl From<Failed> for ReadFault {
    ghost from_gives = { λ _ e. e ≡ Failed };

    fn from(_: Failed) -> Self {
        ReadFault::Failed
    }
}

impl From<AllocError> for ReadFault {
    ghost from_gives = { λ _ e. e ≡ NoMemory };

    fn from(_: AllocError) -> Self {
        ReadFault::NoMemory
    }
}

/// How many bytes are asked of the source at a time.
const PIECE: usize = 4096;

/// The bytes that the source has left, which are at most `limit`. The source is then at its end.
///
/// `Failed` comes only where the source's count of faults rose in this call, `TooLong` exactly where
/// more than `limit` bytes come before the end or a fault, and `NoMemory` where memory ran out. After
/// a refusal some bytes are taken, from the front. The time is linear in the bytes read.
pub fn read_all<S: Source>(
    alloc: Global,
    source: &mut S,
    limit: usize,
) -> Result<Vec<u8>, ReadFault>
    ensures bytes { IfOk result (λ text. IfSome (S.left source.old) (λ bytes. text.items ≡ bytes)) }
    ensures end { OnOk result (IsAtEnd (S.left source.new)) }
    ensures limit { IfOk result (λ text. vec_len text ≤ limit) }
    ensures too_long { IsErrOf result ReadFault.TooLong
        → IfSome (S.left source.old) (λ bytes. limit < length bytes) }
    ensures rest { LeavesEnd (S.left source.old) (S.left source.new) }
    ensures failed { IsErrOf result ReadFault.Failed → Rose (S.faults source.old) (S.faults source.new) }
    ensures later { S.faults source.old ≤ S.faults source.new }
    ensures same { OnOk result (S.faults source.new ≡ S.faults source.old) }
{
    let mut text = Vec::new(alloc);
    let mut piece = [0; PIECE];
    loop {
        let count = source.read(&mut piece)?;
        if count == 0 {
            return Ok(text);
        }
        if count > limit - text.len() {
            return Err(ReadFault::TooLong);
        }
        text.extend_from_slice(&piece[..count])?;
    }
}
