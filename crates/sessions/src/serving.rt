// A session of a server: the messages of a link are answered one after another. An answer is written in the
// format of the last hello that came, and in the first format before any.
ghost use Rattle.std.specs.Prelude.{◌≡◌, ◌≤◌, ◌↔◌, IfOk, Result, Ok, Err, true, false};
ghost use Rattle.hmr_base.specs.Causes.{Rose};
ghost use Rattle.transport.specs.declared.link.Phase.{Phase};
ghost use Rattle.update_msgs.specs.Writable.{IsFormat, IsSayable};
ghost use Rattle.update_msgs.specs.declared.message.ClientMsg.TheVariants.{Bye};
ghost use Rattle.sessions.specs.Course.{Course, format_after};

use crate::ended::Ended;
use message_json::{decode_client, encode};
use std::alloc::Global;
use std::sync::Wait;
use transport::Link;
use update_msgs::{ClientMsg, Desk};

/// Opens a fresh link, answers each message of it by the desk until the session ends, and closes it.
///
/// Each message that is received is read and handed to the desk, in order, and the desk's answer is sent, in
/// the format of the last hello that came, and in format 1 before any. The first bye is the last message
/// that is taken. [`Ended::Closed`] comes exactly where a bye was answered or the peer closed,
/// [`Ended::LinkFault`] only where the link's count rose in this call, [`Ended::BadMessage`] exactly where
/// what was received reads as no message, [`Ended::Stopped`] exactly where the desk answered that its
/// transcript is full, and [`Ended::NoMemory`] where memory ran out. At a fault of the link and where memory
/// ran out the last answer may be unsent; at all other endings each answer was sent. It waits, and has no
/// bound on messages.
pub fn serve_session<R: Wait, L: Link, D: Desk>(
    rt: &R,
    alloc: Global,
    link: &mut L,
    desk: &mut D,
) -> Ended
    requires fresh { L.phase link.old ≡ Phase.Fresh }
    requires room { D.full desk.old ≡ false }
    ensures shut { L.phase link.new ≡ Phase.Shut }
    ensures course { Course 1 (L.left link.old) (L.left link.new) (L.sent link.old) (L.sent link.new)
        (D.told desk.old) (D.told desk.new) (Err result) }
    ensures later { L.faults link.old ≤ L.faults link.new }
    ensures failed { result ≡ Ended.LinkFault → Rose (L.faults link.old) (L.faults link.new) }
    ensures stopped { result ≡ Ended.Stopped ↔ D.full desk.new ≡ true }
    ensures stays { D.stays desk.old desk.new }
{
    if let Err(fault) = link.open(alloc) {
        link.close();
        return Ended::from(fault);
    }
    let ended = talk(rt, alloc, link, desk);
    link.close();
    ended
}

// Answers each message of an open link until the session ends.
fn talk<R: Wait, L: Link, D: Desk>(rt: &R, alloc: Global, link: &mut L, desk: &mut D) -> Ended
    requires is_open { L.phase link.old ≡ Phase.Open }
    requires room { D.full desk.old ≡ false }
    ensures course { Course 1 (L.left link.old) (L.left link.new) (L.sent link.old) (L.sent link.new)
        (D.told desk.old) (D.told desk.new) (Err result) }
    ensures later { L.faults link.old ≤ L.faults link.new }
    ensures failed { result ≡ Ended.LinkFault → Rose (L.faults link.old) (L.faults link.new) }
    ensures stopped { result ≡ Ended.Stopped ↔ D.full desk.new ≡ true }
    ensures stays { D.stays desk.old desk.new }
{
    let mut format = 1;
    for _ in rt.forever() {
        match turn(alloc, link, desk, format) {
            Ok(now) => format = now,
            Err(ended) => return ended,
        }
    }
    unreachable!()
}

// Takes one message and answers it. The session goes on in the format that comes back, or has ended.
fn turn<L: Link, D: Desk>(
    alloc: Global,
    link: &mut L,
    desk: &mut D,
    format: u8,
) -> Result<u8, Ended>
    requires is_open { L.phase link.old ≡ Phase.Open }
    requires room { D.full desk.old ≡ false }
    requires format { IsFormat format }
    ensures is_open { L.phase link.new ≡ Phase.Open }
    ensures format { IfOk result IsFormat }
    ensures course { Course format (L.left link.old) (L.left link.new) (L.sent link.old) (L.sent link.new)
        (D.told desk.old) (D.told desk.new) result }
    ensures later { L.faults link.old ≤ L.faults link.new }
    ensures failed { result ≡ Err Ended.LinkFault → Rose (L.faults link.old) (L.faults link.new) }
    ensures stopped { result ≡ Err Ended.Stopped ↔ D.full desk.new ≡ true }
    ensures stays { D.stays desk.old desk.new }
{
    let Some(bytes) = link.recv(alloc)? else {
        return Err(Ended::Closed);
    };
    let msg = decode_client(alloc, &bytes)?;
    let format = format_after(format, &msg);
    let is_last = is_bye(&msg);
    let answer = desk.answer(msg)?;
    let text = encode(alloc, &answer, format)?;
    link.send(alloc, &text)?;
    if is_last {
        Err(Ended::Closed)
    } else {
        Ok(format)
    }
}

// The format of answers from this message on.
fn format_after(format: u8, msg: &ClientMsg) -> u8
    ensures after { result ≡ format_after format msg.now }
    ensures format { IsFormat format → IsSayable msg.now → IsFormat result }
{
    match msg {
        ClientMsg::Hello { format: named, .. } => *named,
        _ => format,
    }
}

// Whether this is the last message.
fn is_bye(msg: &ClientMsg) -> bool
    ensures { result ≡ true ↔ msg.now ≡ Bye }
{
    matches!(msg, ClientMsg::Bye)
}
