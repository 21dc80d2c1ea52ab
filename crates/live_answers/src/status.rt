// Statuses of answers, and why a request is refused.
ghost use Rattle.std.specs.Prelude.{◌≡◌};
ghost use Rattle.live_answers.specs.Replies.{allowed, sentence, status_of, status_text};

/// The status of an answer.
#[derive(Clone, Copy, Debug, PartialEq, Eq)]
pub(crate) enum Status {
    Ok,
    NoContent,
    BadRequest,
    Forbidden,
    NotFound,
    MethodNotAllowed,
    LengthRequired,
    ContentTooLarge,
    UriTooLong,
    FieldsTooLarge,
    ServerError,
}

/// Why a request is refused.
#[derive(Clone, Copy, Debug, PartialEq, Eq)]
pub(crate) enum Refusal {
    /// The bytes are no head, or a body follows or could where none is taken.
    Unreadable,
    /// How long the body is isn't told by one Content-Length of decimal digits.
    UnclearBody,
    /// Fewer bytes of the body came, or more.
    CutBody,
    /// No host is named, or one that isn't this server's.
    ForeignHost,
    /// A WebSocket is asked for by a page of another server.
    ForeignOrigin,
    /// A page of another server posts.
    ForeignPost,
    /// Nothing is at the path.
    Missing,
    /// No such path is looked at.
    Hidden,
    /// A folder is at the path.
    Folder,
    /// Nothing is taken at the path.
    NotTaken,
    /// The method is neither GET, HEAD nor POST.
    OtherMethod,
    /// It isn't told how long the body is.
    NoLength,
    /// The body is too long.
    LongBody,
    /// The target is too long.
    LongTarget,
    /// The head is too long.
    LongHead,
    /// A file is at the path that can't be read.
    Unread,
}

impl Status {
    /// The number and the reason, as they stand in the first line of an answer.
    pub(crate) fn text(self) -> &'static str
        ensures { result.now ≡ status_text self }
    {
        match self {
            Status::Ok => "200 OK",
            Status::NoContent => "204 No Content",
            Status::BadRequest => "400 Bad Request",
            Status::Forbidden => "403 Forbidden",
            Status::NotFound => "404 Not Found",
            Status::MethodNotAllowed => "405 Method Not Allowed",
            Status::LengthRequired => "411 Length Required",
            Status::ContentTooLarge => "413 Content Too Large",
            Status::UriTooLong => "414 URI Too Long",
            Status::FieldsTooLarge => "431 Request Header Fields Too Large",
            Status::ServerError => "500 Internal Server Error",
        }
    }

    /// The line of the methods that are answered, where another was asked.
    pub(crate) fn allowed(self) -> &'static str
        ensures { result.now ≡ allowed self }
    {
        match self {
            Status::MethodNotAllowed => "Allow: GET, HEAD, POST\r\n",
            _ => "",
        }
    }
}

impl Refusal {
    pub(crate) fn status(self) -> Status
        ensures { result ≡ status_of self }
    {
        match self {
            Refusal::Unreadable | Refusal::UnclearBody | Refusal::CutBody => Status::BadRequest,
            Refusal::ForeignHost | Refusal::ForeignOrigin | Refusal::ForeignPost => {
                Status::Forbidden
            }
            Refusal::Missing | Refusal::Hidden | Refusal::Folder | Refusal::NotTaken => {
                Status::NotFound
            }
            Refusal::OtherMethod => Status::MethodNotAllowed,
            Refusal::NoLength => Status::LengthRequired,
            Refusal::LongBody => Status::ContentTooLarge,
            Refusal::LongTarget => Status::UriTooLong,
            Refusal::LongHead => Status::FieldsTooLarge,
            Refusal::Unread => Status::ServerError,
        }
    }

    /// What is said to who asked.
    pub(crate) fn sentence(self) -> &'static str
        ensures { result.now ≡ sentence self }
    {
        match self {
            Refusal::Unreadable => "The request is none of HTTP without a body.",
            Refusal::UnclearBody => {
                "The body's length is to be told by one Content-Length of decimal digits."
            }
            Refusal::CutBody => "The body hasn't as many bytes as its Content-Length tells.",
            Refusal::ForeignHost => {
                "The request names another host than this server on this machine."
            }
            Refusal::ForeignOrigin => "Only pages of this server may open a WebSocket here.",
            Refusal::ForeignPost => "Only pages of this server may post here.",
            Refusal::Missing => "There is no file at this path.",
            Refusal::Hidden => "No part of a path may be empty or begin with a dot.",
            Refusal::Folder => {
                "This path is a folder: its page is at the path with a slash at its end."
            }
            Refusal::NotTaken => "Nothing is taken at this path.",
            Refusal::OtherMethod => "Only GET, HEAD and POST are answered.",
            Refusal::NoLength => "The body's length isn't told.",
            Refusal::LongBody => "The body has more than 4,194,304 bytes.",
            Refusal::LongTarget => "The target has more than 1,024 bytes.",
            Refusal::LongHead => "The head has more than 8,192 bytes.",
            Refusal::Unread => "The file at this path can't be read, or is too large.",
        }
    }
}
