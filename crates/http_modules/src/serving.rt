// What is answered to heads, by the modules of a version map.
ghost use Rattle.std.specs.Prelude.{◌≡◌, ◌≤◌, IfOk, IfSome};
ghost use Rattle.hmr_base.specs.Causes.{Rose};
ghost use Rattle.http_heads.specs.Asks.{Ask, Asks};
ghost use Rattle.http_exchange.specs.Replies.{answer_of, answer_to};
ghost use Rattle.http_exchange.specs.Serving.{Serves};
ghost use Rattle.http_modules.specs.Rewriting.{body_of};

use crate::modules::Modules;
use hmr_base::{Sink, Source};
use http_exchange::{HttpEnd, Reply, reply_to, serve};
use std::alloc::{AllocError, Global};
use version_map::VersionMap;

/// The answer to a head: the bytes as a whole, with the empty line at their end. It costs the module that is
/// asked for, and not the others.
pub fn answer_to(alloc: Global, head: &[u8], map: &VersionMap) -> Result<Reply, AllocError>
    ensures { IfOk result
        (λ reply. (ask : Ask) × Asks head.now ask × (answer_of reply ≡ answer_to (body_of map.now) ask)) }
{
    reply_to(alloc, &Modules { map }, head)
}

/// Answers the HTTP/1.x requests of the source on the sink, one after another, by what the map serves: under
/// the name of each module that is served its text in canonical form, the specifiers of its imports with the
/// versions that are served. The next head is read once an answer was written, which no clause says.
///
/// `ReadFault` comes only where the source's count of faults rose in this call, and `WriteFault` only where
/// the sink's did. What was written before a stop is a prefix of the answers.
pub fn serve_http<S: Source, K: Sink>(
    alloc: Global,
    source: &mut S,
    sink: &mut K,
    map: &VersionMap,
) -> HttpEnd
    ensures serves { IfSome (S.left source.old) (λ bytes. Serves
        (body_of map.now) bytes
        (K.written sink.old)
        (K.written sink.new) result) }
    ensures failed { result ≡ HttpEnd.ReadFault → Rose (S.faults source.old) (S.faults source.new) }
    ensures later { S.faults source.old ≤ S.faults source.new }
    ensures unwritten { result ≡ HttpEnd.WriteFault → Rose (K.faults sink.old) (K.faults sink.new) }
    ensures sink_later { K.faults sink.old ≤ K.faults sink.new }
{
    serve(alloc, source, sink, &Modules { map })
}
