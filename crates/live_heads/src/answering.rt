// Heads of HTTP are answered one after another, until a visitor asks for a WebSocket or is to go.
ghost use Rattle.std.specs.Prelude.{◌≡◌, ◌≤◌};
ghost use Rattle.transport.specs.declared.link.Phase.{Phase};

use doors::{Coming, Visitor};
use hmr_types::Text;
use live_answers::{Answer, Next, answer_to_long, foreign_text};
use live_context::Shared;
use live_lines::{Foreign, News};
use live_site::Site;
use std::alloc::{AllocError, Global};
use std::sync::Wait;
use transport::Link;

/// Answers the requests of a visitor. It says whether the visitor asks for a WebSocket, which is then to be
/// opened; else the visitor is to be closed, as also where a head doesn't come, an answer isn't taken or
/// memory runs out. Each request takes the time and the memory of its answer. It waits.
pub fn answer_heads<R: Wait, E: Visitor, S: Site + Drop>(
    rt: &R,
    alloc: Global,
    end: &mut E,
    shared: &Shared<S>,
) -> bool
    requires fresh { E.phase end.old ≡ Phase.Fresh }
    ensures fresh { E.phase end.new ≡ Phase.Fresh }
    ensures later { E.faults end.old ≤ E.faults end.new }
{
    for _ in rt.forever() {
        match answer_next(rt, alloc, end, shared) {
            Next::Head => {}
            Next::Ring => shared.bell.ring(),
            Next::RingAndClose => {
                shared.bell.ring();
                return false;
            }
            Next::Upgrade => return true,
            Next::Close | Next::ForeignHost | Next::ForeignOrigin => return false,
        }
    }
    unreachable!()
}

// Answers the next request, and says what comes then.
fn answer_next<R: Wait, E: Visitor, S: Site + Drop>(
    rt: &R,
    alloc: Global,
    end: &mut E,
    shared: &Shared<S>,
) -> Next
    requires fresh { E.phase end.old ≡ Phase.Fresh }
    ensures fresh { E.phase end.new ≡ Phase.Fresh }
    ensures later { E.faults end.old ≤ E.faults end.new }
{
    let Ok(coming) = end.next_head(alloc) else {
        return Next::Close;
    };
    let Some(body) = body_behind(alloc, end, shared, &coming) else {
        return Next::Close;
    };
    let Ok(answer) = answer_to(rt, alloc, shared, coming, &body) else {
        return Next::Close;
    };
    if answer.text.is_empty() {
        return answer.next;
    }
    match end.answer(&answer.text) {
        Ok(()) => answer.next,
        Err(_) => Next::Close,
    }
}

// The body behind a head, of no bytes where none is taken; None where it didn't come whole.
fn body_behind<E: Visitor, S: Site + Drop>(
    alloc: Global,
    end: &mut E,
    shared: &Shared<S>,
    coming: &Coming,
) -> Option<Vec<u8>>
    requires fresh { E.phase end.old ≡ Phase.Fresh }
    ensures fresh { E.phase end.new ≡ Phase.Fresh }
    ensures later { E.faults end.old ≤ E.faults end.new }
{
    let length = match coming {
        Coming::Head(head) => shared.site.body_length(head),
        Coming::TooLong | Coming::Gone => None,
    };
    let Some(length) = length else {
        return Some(Vec::new(alloc));
    };
    match end.next_body(alloc, length) {
        Ok(body) => body,
        Err(_) => None,
    }
}

// The answer to what came.
fn answer_to<R: Wait, S: Site + Drop>(
    rt: &R,
    alloc: Global,
    shared: &Shared<S>,
    coming: Coming,
    body: &[u8],
) -> Result<Answer, AllocError> {
    match coming {
        Coming::Head(head) => {
            let told = shared.site.answer(rt, alloc, &head, body)?;
            tell_stranger(rt, alloc, shared, &head, told.next);
            Ok(told)
        }
        Coming::TooLong => answer_to_long(alloc),
        Coming::Gone => Ok(Answer {
            text: Vec::new(alloc),
            next: Next::Close,
        }),
    }
}

// Tells that a request named another server.
fn tell_stranger<R: Wait, S: Drop>(
    rt: &R,
    alloc: Global,
    shared: &Shared<S>,
    head: &[u8],
    next: Next,
) {
    let foreign = match next {
        Next::ForeignHost => Foreign::Host,
        Next::ForeignOrigin => Foreign::Origin,
        Next::Head | Next::Ring | Next::RingAndClose | Next::Close | Next::Upgrade => return,
    };
    if let Ok(told) = shown_name(alloc, head, shared.port) {
        shared.news.tell(rt, News::Stranger { foreign, told });
    }
}

// What a head names, as it can be shown.
fn shown_name(alloc: Global, head: &[u8], port: u16) -> Result<Text, AllocError> {
    match String::from_utf8(foreign_text(alloc, head, port)?) {
        Ok(named) => Ok(Text::from_string(named)),
        Err(_) => Ok(Text::from_string(String::new(alloc))),
    }
}
