// Bytes taken from the source until a head is whole.
ghost use Rattle.std.specs.Prelude.{◌≡◌, ◌≢◌, ◌≤◌, Err, IfOk, OnOk};
ghost use Rattle.std.specs.Io.KnownBytes.{IsAtEnd};
ghost use Rattle.hmr_base.specs.Causes.{Rose};
ghost use Rattle.http_heads.specs.Cutting.{Cuts};
ghost use Rattle.http_heads.specs.declared.cutting.Cut.TheVariants as cut;
ghost use Rattle.http_exchange.specs.Serving.{Moves};

use crate::stop::Stop;
use hmr_base::Source;
use http_heads::{Cut, find_head};

/// How many bytes are asked of the source at a time.
const PIECE: usize = 4096;

/// Takes bytes from the source, behind those that are held, until the held bytes have a head or are too many
/// for one, or the source is at its end. It takes none where the held bytes have a head. Each byte is searched
/// once, but for three at the end of each piece.
pub(crate) fn read_head<S: Source>(source: &mut S, held: &mut Vec<u8>) -> Result<Cut, Stop>
    ensures cuts { IfOk result (Cuts held.new.items) }
    ensures moves { OnOk result (Moves (S.left source.old) (S.left source.new) held.old.items held.new.items) }
    ensures end { IfOk result (λ found. found ≡ cut.Partial → IsAtEnd (S.left source.new)) }
    ensures failed { result ≡ Err Stop.ReadFault → Rose (S.faults source.old) (S.faults source.new) }
    ensures read { result ≢ Err Stop.WriteFault }
    ensures later { S.faults source.old ≤ S.faults source.new }
    ensures same { OnOk result (S.faults source.new ≡ S.faults source.old) }
{
    let mut piece = [0; PIECE];
    let mut searched = 0;
    loop {
        let found = find_head(held, searched);
        if found != Cut::Partial {
            return Ok(found);
        }
        searched = held.len();
        let count = source.read(&mut piece)?;
        if count == 0 {
            return Ok(Cut::Partial);
        }
        held.extend_from_slice(&piece[..count])?;
    }
}
