// What a head wants of a live server.
ghost use Rattle.std.specs.Prelude.{true, ◌≡◌};
ghost use Rattle.http_heads.specs.Asks.{said};
ghost use Rattle.request_details.specs.Details.{said as detailed};
ghost use Rattle.live_answers.specs.declared.wanted.Wanted.TheVariants as wanted;
ghost use Rattle.live_answers.specs.Wants.{Wants, bad_by, bare_of, want_admitted, want_asked, want_by};
ghost use Rattle.live_answers.specs.Wants.{want_counted, want_of, want_posted, want_sized};

use crate::status::Refusal;
use http_heads::{Asked, TARGET_BYTES, judge};
use request_details::{Body, Details, path_of, query_of, read_details};
use request_guard::{Admission, admit};

/// What is wanted. `bare` says that the answer is to have no body, `closes` that the connection is closed
/// after it. A target is up to its query, and its escapes aren't read.
#[derive(Clone, Copy)]
pub(crate) enum Wanted<'a> {
    /// A WebSocket, which may be opened, by a target with this query.
    Upgrade {
        query: &'a [u8],
    },
    /// What is at a path.
    Get(GetRequest<'a>),
    /// That a body of so many bytes is taken at the path of this target.
    Post {
        target: &'a [u8],
        length: usize,
        closes: bool,
    },
    /// Nothing that is given.
    Refuse {
        why: Refusal,
        bare: bool,
        closes: bool,
    },
}

/// A request for what is at the path of a target.
#[derive(Clone, Copy)]
pub(crate) struct GetRequest<'a> {
    pub target: &'a [u8],
    pub query: &'a [u8],
    pub wants_page: bool,
    pub bare: bool,
    pub closes: bool,
}

/// What a head wants of a server at this port.
pub(crate) fn read_wanted<'a>(port: u16, head: &'a [u8]) -> Wanted<'a>
    ensures { Wants port head.now (want_of result) }
{
    match read_details(head, port) {
        Some(details) => wanted_by(admit(head, port), judge(head), details),
        None => refuse(Refusal::Unreadable, false),
    }
}

fn wanted_by<'a>(by: Option<Admission>, asked: Asked<'a>, details: Details<'a>) -> Wanted<'a>
    ensures { want_of result ≡ want_by by (said asked.entry) (detailed details.entry) }
{
    match by {
        None => refuse(Refusal::Unreadable, false),
        Some(Admission::ForeignHost) => refuse(Refusal::ForeignHost, is_bare(&asked)),
        Some(Admission::ForeignOrigin) => refuse(Refusal::ForeignOrigin, is_bare(&asked)),
        Some(Admission::Admitted { upgrade: true }) => Wanted::Upgrade {
            query: query_of(details.target),
        },
        Some(Admission::Admitted { upgrade: false }) => wanted_admitted(asked, details),
    }
}

// A refusal that closes.
fn refuse<'a>(why: Refusal, bare: bool) -> Wanted<'a>
    ensures { result ≡ wanted.Refuse why bare true }
{
    Wanted::Refuse {
        why,
        bare,
        closes: true,
    }
}

fn is_bare(asked: &Asked) -> bool
    ensures { result ≡ bare_of (said asked.now) }
{
    match asked {
        Asked::BadRequest { bare } => *bare,
        Asked::OtherMethod { closes: _ } => false,
        Asked::LongTarget { bare, closes: _ } => *bare,
        Asked::Module {
            name: _,
            bare,
            closes: _,
        } => *bare,
    }
}

// What a head wants that is let in and asks for no WebSocket.
fn wanted_admitted<'a>(asked: Asked<'a>, details: Details<'a>) -> Wanted<'a>
    ensures { want_of result ≡ want_admitted (detailed details.entry) (said asked.entry) }
{
    if details.method == b"POST".as_slice() {
        wanted_posted(details)
    } else {
        wanted_asked(asked, details)
    }
}

// What a head wants that is no post.
fn wanted_asked<'a>(asked: Asked<'a>, details: Details<'a>) -> Wanted<'a>
    ensures { want_of result ≡ want_asked (detailed details.entry) (said asked.entry) }
{
    match asked {
        Asked::BadRequest { bare } => refuse(bad_by(details.method), bare),
        Asked::OtherMethod { closes } => Wanted::Refuse {
            why: Refusal::OtherMethod,
            bare: false,
            closes,
        },
        Asked::LongTarget { bare, closes } => Wanted::Refuse {
            why: Refusal::LongTarget,
            bare,
            closes,
        },
        Asked::Module { name, bare, closes } => Wanted::Get(GetRequest {
            target: name,
            query: query_of(details.target),
            wants_page: details.wants_page,
            bare,
            closes,
        }),
    }
}

// What a head with a body is refused for: the method, where it is another.
fn bad_by(method: &[u8]) -> Refusal
    ensures { result ≡ bad_by method.now }
{
    if method == b"GET".as_slice() || method == b"HEAD".as_slice() {
        Refusal::Unreadable
    } else {
        Refusal::OtherMethod
    }
}

// What a post wants.
fn wanted_posted<'a>(details: Details<'a>) -> Wanted<'a>
    ensures { want_of result ≡ want_posted (detailed details.entry) }
{
    if details.is_foreign {
        return refuse(Refusal::ForeignPost, false);
    }
    wanted_sized(details)
}

fn wanted_sized<'a>(details: Details<'a>) -> Wanted<'a>
    ensures { want_of result ≡ want_sized (detailed details.entry) details.entry.body }
{
    match details.body {
        Body::Untold => refuse(Refusal::NoLength, false),
        Body::Bytes(length) => wanted_counted(details, length),
        Body::Long => refuse(Refusal::LongBody, false),
        Body::Unclear => refuse(Refusal::UnclearBody, false),
    }
}

// What a post wants that has so many bytes.
fn wanted_counted<'a>(details: Details<'a>, length: usize) -> Wanted<'a>
    ensures { want_of result ≡ want_counted (detailed details.entry) length }
{
    if details.target.len() > TARGET_BYTES {
        return refuse(Refusal::LongTarget, false);
    }
    Wanted::Post {
        target: path_of(details.target),
        length,
        closes: details.closes,
    }
}
