// The answer to a head.
ghost use Rattle.std.specs.Prelude.{◌≡◌, IfOk, true, false, option_map};
ghost use Rattle.live_answers.specs.Given.{given_of};
ghost use Rattle.live_answers.specs.Paths.{open_path};
ghost use Rattle.live_answers.specs.Replies.{done_text, refusal, told_of};
ghost use Rattle.live_answers.specs.Serving.{Answers, AnswersGet, AnswersHead, AnswersPost, AnswersTaken};
ghost use Rattle.live_answers.specs.Serving.{AnswersWhole, IsRefused, IsText, IsTold, TellsWant, given_reply};
ghost use Rattle.live_answers.specs.Serving.{next_refused, next_rung, next_told};
ghost use Rattle.live_answers.specs.Taken.{taken_of};
ghost use Rattle.live_answers.specs.Wants.{length_of, upgrade_of, want_of};
ghost use Rattle.live_answers.specs.declared.status.Refusal.TheVariants as refused;

use crate::found::Found;
use crate::media::Media;
use crate::paths::open_path;
use crate::reply::{Reply, done_text};
use crate::site::{Paths, Posted};
use crate::status::{Refusal, Status};
use crate::wanted::{GetRequest, Wanted, read_wanted};
use request_guard::media_type;
use std::alloc::{AllocError, Global};

/// What comes after an answer.
#[derive(Clone, Copy, Debug, PartialEq, Eq)]
pub enum Next {
    /// The next head of the connection.
    Head,
    /// The next head of the connection; the server's bell is to be rung.
    Ring,
    /// The connection is closed; the server's bell is to be rung.
    RingAndClose,
    /// The connection is closed.
    Close,
    /// The connection is closed: the head names no host, or one that isn't this server's.
    ForeignHost,
    /// The connection is closed: a page of another server asks for a WebSocket, or posts.
    ForeignOrigin,
    /// The head asks for a WebSocket, which may be opened. No text is written.
    Upgrade,
}

/// The bytes that are written, and what comes next.
#[derive(Debug, Drop)]
pub struct Answer {
    pub text: Vec<u8>,
    pub next: Next,
}

/// How many bytes of a body are to be read behind a head before it is answered by a server at this port of
/// this machine: those of a post that is let in, at most 4,194,304. None where no body is read. It takes
/// time linear in the head.
pub fn body_length(head: &[u8], port: u16) -> Option<usize>
    ensures { TellsWant port head.now length_of result }
{
    match read_wanted(port, head) {
        Wanted::Post {
            target: _,
            length,
            closes: _,
        } => Some(length),
        Wanted::Upgrade { query: _ } | Wanted::Get(_) => None,
        Wanted::Refuse {
            why: _,
            bare: _,
            closes: _,
        } => None,
    }
}

/// The query of the target by which a WebSocket is asked for that may be opened, of no bytes where the
/// target has none; None where none is asked for. It takes time linear in the head.
pub fn upgrade_query<'a>(head: &'a [u8], port: u16) -> Option<&'a [u8]>
    ensures { TellsWant port head.now upgrade_of (option_map (λ query. query.now) result) }
{
    match read_wanted(port, head) {
        Wanted::Upgrade { query } => Some(query),
        Wanted::Get(_) => None,
        Wanted::Post {
            target: _,
            length: _,
            closes: _,
        } => None,
        Wanted::Refuse {
            why: _,
            bare: _,
            closes: _,
        } => None,
    }
}

/// The answer to a head, of a server at this port of this machine with this site: what is at a path, what
/// became of the body there, an upgrade, or a refusal with its sentence. The body is the bytes that were
/// read behind the head, as many as [`body_length`] tells; where they are more or fewer, nothing is taken,
/// and the connection is closed. Where no body is read, they aren't looked at. It asks the site at most
/// once, and of no path of which a part begins with a dot.
///
/// It takes memory for what is found and the answer, and time linear in the head and the answer.
pub fn answer_head<P: Paths>(
    alloc: Global,
    site: &P,
    port: u16,
    head: &[u8],
    body: &[u8],
) -> Result<Answer, AllocError>
    ensures { IfOk result (AnswersHead port (P.gives site.now) (P.takes site.now) head.now body.now) }
{
    answer_to(alloc, site, body, read_wanted(port, head))
}

/// The answer where the bytes that came are too many for a head: 431, and the connection is closed.
pub fn answer_to_long(alloc: Global) -> Result<Answer, AllocError>
    ensures { IfOk result (IsTold (refusal refused.LongHead false true) Next.Close) }
{
    refused(alloc, Refusal::LongHead, false, true)
}

fn answer_to<P: Paths>(
    alloc: Global,
    site: &P,
    body: &[u8],
    wanted: Wanted<'_>,
) -> Result<Answer, AllocError>
    ensures { IfOk result (Answers (P.gives site.now) (P.takes site.now) body.now (want_of wanted.entry)) }
{
    match wanted {
        Wanted::Upgrade { query: _ } => Ok(Answer {
            text: Vec::new(alloc),
            next: Next::Upgrade,
        }),
        Wanted::Get(request) => answer_get(alloc, site, request),
        Wanted::Post {
            target,
            length,
            closes,
        } => answer_post(alloc, site, body, target, length, closes),
        Wanted::Refuse { why, bare, closes } => refused(alloc, why, bare, closes),
    }
}

// The answer to who wants what is at a path.
fn answer_get<P: Paths>(
    alloc: Global,
    site: &P,
    request: GetRequest<'_>,
) -> Result<Answer, AllocError>
    ensures { IfOk result (AnswersGet (P.gives site.now) (open_path request.entry.target.now)
        request.entry.query.now request.entry.wants_page request.entry.bare request.entry.closes) }
{
    let GetRequest {
        target,
        query,
        wants_page,
        bare,
        closes,
    } = request;
    match open_path(alloc, target)? {
        Some(path) => {
            let found = site.get(alloc, &path, query, wants_page)?;
            told(
                alloc,
                given_reply(alloc, &path, bare, closes, found)?,
                closes,
            )
        }
        None => refused(alloc, Refusal::Hidden, bare, closes),
    }
}

// The answer to who posts, where so many bytes are told.
fn answer_post<P: Paths>(
    alloc: Global,
    site: &P,
    body: &[u8],
    target: &[u8],
    length: usize,
    closes: bool,
) -> Result<Answer, AllocError>
    ensures { IfOk result
        (AnswersPost (P.takes site.now) body.now (open_path target.now) length closes) }
{
    if body.len() != length {
        return refused(alloc, Refusal::CutBody, false, true);
    }
    answer_whole(alloc, site, body, target, closes)
}

// The answer to who posts, where the body came whole.
fn answer_whole<P: Paths>(
    alloc: Global,
    site: &P,
    body: &[u8],
    target: &[u8],
    closes: bool,
) -> Result<Answer, AllocError>
    ensures { IfOk result (AnswersWhole (P.takes site.now) body.now (open_path target.now) closes) }
{
    match open_path(alloc, target)? {
        Some(path) => {
            let posted = site.post(alloc, &path, body)?;
            answer_taken(alloc, closes, posted)
        }
        None => refused(alloc, Refusal::Hidden, false, closes),
    }
}

// The answer to who posted, where that became of it.
fn answer_taken(alloc: Global, closes: bool, posted: Posted) -> Result<Answer, AllocError>
    ensures { IfOk result (AnswersTaken closes (taken_of posted)) }
{
    match posted {
        Posted::Done => done(alloc, closes, next_told(closes)),
        Posted::Text(bytes) => {
            let reply = Reply::ok(Media::Json.text(), bytes, false, closes);
            told(alloc, reply, closes)
        }
        Posted::Bad(sentence) => {
            let reply = Reply::plain(alloc, Status::BadRequest, sentence, false, closes)?;
            told(alloc, reply, closes)
        }
        Posted::Missing => refused(alloc, Refusal::NotTaken, false, closes),
        Posted::Ring => done(alloc, closes, next_rung(closes)),
    }
}

// The answer that all is done.
fn done(alloc: Global, closes: bool, next: Next) -> Result<Answer, AllocError>
    ensures { IfOk result (IsText (done_text closes) next) }
{
    Ok(Answer {
        text: done_text(alloc, closes)?,
        next,
    })
}

// An answer, and what comes after one that refuses nobody.
fn told(alloc: Global, reply: Reply, closes: bool) -> Result<Answer, AllocError>
    ensures { IfOk result (IsTold (told_of reply) (next_told closes)) }
{
    Ok(Answer {
        text: reply.text(alloc)?,
        next: next_told(closes),
    })
}

// The answer that refuses a request.
fn refused(alloc: Global, why: Refusal, bare: bool, closes: bool) -> Result<Answer, AllocError>
    ensures { IfOk result (IsRefused why bare closes) }
{
    let reply = Reply::refusal(alloc, why, bare, closes)?;
    Ok(Answer {
        text: reply.text(alloc)?,
        next: next_refused(why, closes),
    })
}

fn next_told(closes: bool) -> Next
    ensures { result ≡ next_told closes }
{
    if closes { Next::Close } else { Next::Head }
}

fn next_rung(closes: bool) -> Next
    ensures { result ≡ next_rung closes }
{
    if closes {
        Next::RingAndClose
    } else {
        Next::Ring
    }
}

fn next_refused(why: Refusal, closes: bool) -> Next
    ensures { result ≡ next_refused why closes }
{
    match why {
        Refusal::ForeignHost => Next::ForeignHost,
        Refusal::ForeignOrigin | Refusal::ForeignPost => Next::ForeignOrigin,
        _ => next_told(closes),
    }
}

// The answer to who wants what is at a path, where that is what was found there.
fn given_reply(
    alloc: Global,
    path: &[u8],
    bare: bool,
    closes: bool,
    found: Found,
) -> Result<Reply, AllocError>
    ensures { IfOk result
        (λ reply. told_of reply ≡ given_reply path.now bare closes (given_of found)) }
{
    match found {
        Found::File(bytes) => Ok(Reply::ok(media_type(path), bytes, bare, closes)),
        Found::Text { media, bytes } => Ok(Reply::ok(media.text(), bytes, bare, closes)),
        Found::Folder => Reply::refusal(alloc, Refusal::Folder, bare, closes),
        Found::Missing => Reply::refusal(alloc, Refusal::Missing, bare, closes),
        Found::Unread => Reply::refusal(alloc, Refusal::Unread, bare, closes),
    }
}
