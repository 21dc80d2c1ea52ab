// One turn: a head is read, and its answer written.
ghost use Rattle.std.specs.Prelude.{◌≡◌, ◌≢◌, ◌≤◌, Err, IfOk, OnErr, OnOk, drop, vec_len};
ghost use Rattle.hmr_base.specs.Causes.{Rose};
ghost use Rattle.http_exchange.specs.Serving.{GaveAt, StoppedAt, TurnedAt};

use crate::reading::read_head;
use crate::reply::{Reply, Status};
use crate::site::{Site, reply_to};
use crate::stop::Stop;
use hmr_base::{Sink, Source, write_all};
use http_heads::Cut;
use std::alloc::{AllocError, Global};

/// What a turn came to.
#[derive(Clone, Copy, Debug, PartialEq, Eq)]
pub(crate) enum Turn {
    /// The input ended between two heads.
    Ended,
    /// A head was answered.
    Answered { closes: bool },
}

/// The answer to the next head, which is taken from the held bytes, or None where the input ended between
/// two heads.
pub(crate) fn next_reply<S: Source, T: Site>(
    alloc: Global,
    source: &mut S,
    site: &T,
    held: &mut Vec<u8>,
) -> Result<Option<Reply>, Stop>
    ensures gave { IfOk result (GaveAt
        (T.bodies site.now)
        (S.left source.old)
        (S.left source.new) held.old.items held.new.items) }
    ensures failed { result ≡ Err Stop.ReadFault → Rose (S.faults source.old) (S.faults source.new) }
    ensures read { result ≢ Err Stop.WriteFault }
    ensures later { S.faults source.old ≤ S.faults source.new }
{
    match read_head(source, held)? {
        Cut::Head(end) => {
            let reply = reply_to(alloc, site, &held[..end])?;
            take_front(alloc, held, end)?;
            Ok(Some(reply))
        }
        Cut::TooLong => {
            let reply = Reply::refusal(alloc, Status::FieldsTooLarge, false, true)?;
            Ok(Some(reply))
        }
        Cut::Partial if held.is_empty() => Ok(None),
        Cut::Partial => {
            let reply = Reply::refusal(alloc, Status::BadRequest, false, true)?;
            Ok(Some(reply))
        }
    }
}

/// Takes so many bytes away at the front.
fn take_front(alloc: Global, held: &mut Vec<u8>, end: usize) -> Result<(), AllocError>
    requires { end ≤ vec_len held.old }
    ensures { OnOk result (held.new.items ≡ drop end held.old.items) }
{
    let rest = Vec::from_slice(alloc, &held[end..])?;
    *held = rest;
    Ok(())
}

/// Reads the next head and writes its answer, whole, or finds the end of the input. The held bytes were read
/// and not answered yet.
pub(crate) fn take_turn<S: Source, K: Sink, T: Site>(
    alloc: Global,
    source: &mut S,
    sink: &mut K,
    site: &T,
    held: &mut Vec<u8>,
) -> Result<Turn, Stop>
    ensures turned { IfOk result (TurnedAt
        (T.bodies site.now)
        (S.left source.old)
        (S.left source.new) held.old.items held.new.items (K.written sink.old) (K.written sink.new)) }
    ensures stopped { OnErr result (StoppedAt
        (T.bodies site.now)
        (S.left source.old) held.old.items (K.written sink.old) (K.written sink.new)) }
    ensures failed { result ≡ Err Stop.ReadFault → Rose (S.faults source.old) (S.faults source.new) }
    ensures later { S.faults source.old ≤ S.faults source.new }
    ensures unwritten { result ≡ Err Stop.WriteFault → Rose (K.faults sink.old) (K.faults sink.new) }
    ensures sink_later { K.faults sink.old ≤ K.faults sink.new }
{
    let reply = match next_reply(alloc, source, site, held)? {
        Some(reply) => reply,
        None => return Ok(Turn::Ended),
    };
    let text = reply.text(alloc)?;
    write_all(sink, &text)?;
    Ok(Turn::Answered {
        closes: reply.closes,
    })
}
