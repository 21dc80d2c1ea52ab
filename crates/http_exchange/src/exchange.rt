// The exchange: turn after turn, up to the end of the input or an answer that closes.
ghost use Rattle.std.specs.Prelude.{◌≡◌, ◌≤◌, IfSome};
ghost use Rattle.hmr_base.specs.Causes.{Rose};
ghost use Rattle.http_exchange.specs.Serving.{Serves};

use crate::next::{Turn, take_turn};
use crate::site::Site;
use crate::stop::Stop;
use hmr_base::{Sink, Source};
use std::alloc::Global;

/// The most answers of one exchange.
pub const TURNS: u64 = 500_000;

/// How an exchange ended.
#[derive(Clone, Copy, Debug, PartialEq, Eq)]
pub enum HttpEnd {
    /// The input ended between two heads, or an answer that closes was written.
    Closed,
    /// The source failed.
    ReadFault,
    /// The sink failed.
    WriteFault,
    /// [`TURNS`] answers were written, none of which closes.
    Turns,
    /// Memory ran out.
    NoMemory,
}

impl From<Stop> for HttpEnd {
    ghost use Rattle.http_exchange.specs.Ends.{end_at};

    ghost from_gives = { λ stop end. end ≡ end_at stop };

    fn from(stop: Stop) -> Self {
        match stop {
            Stop::ReadFault => HttpEnd::ReadFault,
            Stop::WriteFault => HttpEnd::WriteFault,
            Stop::NoMemory => HttpEnd::NoMemory,
        }
    }
}

/// Answers the heads of the source on the sink, one after another, by what the site serves. Each answer is
/// written whole before the next head is read.
///
/// `ReadFault` comes only where the source's count of faults rose in this call, `WriteFault` only where the
/// sink's did, and `Turns` exactly where [`TURNS`] answers were written and more are to come, or the end of
/// the input wasn't seen. What was written before a stop is a prefix of the answers. It holds at most some
/// 12 kB of the input at a time.
pub fn serve<S: Source, K: Sink, T: Site>(
    alloc: Global,
    source: &mut S,
    sink: &mut K,
    site: &T,
) -> HttpEnd
    ensures serves { IfSome (S.left source.old) (λ bytes. Serves
        (T.bodies site.now) bytes
        (K.written sink.old)
        (K.written sink.new) result) }
    ensures failed { result ≡ HttpEnd.ReadFault → Rose (S.faults source.old) (S.faults source.new) }
    ensures later { S.faults source.old ≤ S.faults source.new }
    ensures unwritten { result ≡ HttpEnd.WriteFault → Rose (K.faults sink.old) (K.faults sink.new) }
    ensures sink_later { K.faults sink.old ≤ K.faults sink.new }
{
    let mut held = Vec::new(alloc);
    for _ in 0..TURNS {
        match take_turn(alloc, source, sink, site, &mut held) {
            Ok(Turn::Answered { closes: false }) => {}
            Ok(Turn::Answered { closes: true }) => return HttpEnd::Closed,
            Ok(Turn::Ended) => return HttpEnd::Closed,
            Err(stop) => return HttpEnd::from(stop),
        }
    }
    HttpEnd::Turns
}
