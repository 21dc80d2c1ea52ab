// Answers: a status, a body, and whether the connection is closed after it. An answer to HEAD has no body
// and the length of the one that it would have.
ghost use Rattle.std.specs.Prelude.{◌≡◌, ◌++◌, [], IfOk, OnOk, codes, if◌then◌else◌, length};
ghost use Rattle.http_exchange.specs.Replies.{Answer, allowed, answer_of, answer_text, connection};
ghost use Rattle.http_exchange.specs.Replies.{refusal, status_lines, status_text, type_line};
ghost use Rattle.http_exchange.specs.Replies.{connection_line, content_type, head_text, length_line};

use std::alloc::{AllocError, Global};

/// The status of an answer.
#[derive(Clone, Copy, Debug, PartialEq, Eq)]
pub enum Status {
    /// 200: the module follows.
    Ok,
    /// 400: the bytes are no head, or a body follows or could.
    BadRequest,
    /// 404: nothing is served under the name.
    NotFound,
    /// 405: the method is neither GET nor HEAD.
    MethodNotAllowed,
    /// 414: the target is too long.
    UriTooLong,
    /// 431: the head is too long.
    FieldsTooLarge,
}

impl Status {
    /// The number and the reason, as they stand in the first line of an answer.
    pub fn text(self) -> &'static str
        ensures { result.now ≡ status_text self }
    {
        match self {
            Status::Ok => "200 OK",
            Status::BadRequest => "400 Bad Request",
            Status::NotFound => "404 Not Found",
            Status::MethodNotAllowed => "405 Method Not Allowed",
            Status::UriTooLong => "414 URI Too Long",
            Status::FieldsTooLarge => "431 Request Header Fields Too Large",
        }
    }

    fn content_type(self) -> &'static str
        ensures { result.now ≡ content_type self }
    {
        match self {
            Status::Ok => "text/javascript",
            _ => "text/plain",
        }
    }

    fn allowed(self) -> &'static str
        ensures { result.now ≡ allowed self }
    {
        match self {
            Status::MethodNotAllowed => "Allow: GET, HEAD\r\n",
            _ => "",
        }
    }
}

/// An answer.
#[derive(Drop)]
pub struct Reply {
    pub status: Status,
    /// The bytes of the body, also where it isn't sent.
    pub body: Vec<u8>,
    /// Whether the body is left out, as in an answer to HEAD.
    pub bare: bool,
    /// Whether the connection is closed after the answer.
    pub closes: bool,
}

impl Reply {
    /// The answer that refuses a request by this status. Its body is the number and the reason, and LF.
    pub fn refusal(
        alloc: Global,
        status: Status,
        bare: bool,
        closes: bool,
    ) -> Result<Reply, AllocError>
        ensures { IfOk result (λ reply. answer_of reply ≡ refusal status bare closes) }
    {
        let mut body = Vec::from_slice(alloc, status.text().as_bytes())?;
        body.push(b'\n')?;
        Ok(Reply {
            status,
            body,
            bare,
            closes,
        })
    }

    /// The bytes of the answer. It takes time and memory in proportion to its body.
    pub fn text(&self, alloc: Global) -> Result<Vec<u8>, AllocError>
        ensures { IfOk result (λ text. text.items ≡ answer_text (answer_of self.now)) }
    {
        let mut text = Vec::new(alloc);
        put_head(&mut text, self.status, self.body.len(), self.closes)?;
        put_body(&mut text, &self.body, self.bare)?;
        Ok(text)
    }
}

/// Puts the lines of an answer before its body, behind what was written before.
#[tactic(auto, unfolding(crate::specs::Replies::head_text))]
fn put_head(
    out: &mut Vec<u8>,
    status: Status,
    length: usize,
    closes: bool,
) -> Result<(), AllocError>
    ensures { OnOk result (out.new.items ≡ out.old.items ++ head_text status length closes) }
{
    put_status(out, status)?;
    put_type(out, status)?;
    put_length(out, length)?;
    put_connection(out, closes)?;
    put(out, "\r\n")
}

/// Puts the body, unless it is left out.
fn put_body(out: &mut Vec<u8>, body: &[u8], bare: bool) -> Result<(), AllocError>
    ensures { OnOk result (out.new.items ≡ out.old.items ++ (if bare then [] else body.now)) }
{
    if bare {
        return Ok(());
    }
    out.extend_from_slice(body)
}

#[tactic(auto, unfolding(crate::specs::Replies::status_lines))]
fn put_status(out: &mut Vec<u8>, status: Status) -> Result<(), AllocError>
    ensures { OnOk result (out.new.items ≡ out.old.items ++ status_lines status) }
{
    put_line(out, "HTTP/1.1 ", status.text())?;
    put(out, status.allowed())
}

#[tactic(auto, unfolding(crate::specs::Replies::type_line))]
fn put_type(out: &mut Vec<u8>, status: Status) -> Result<(), AllocError>
    ensures { OnOk result (out.new.items ≡ out.old.items ++ type_line status) }
{
    put_line(out, "Content-Type: ", status.content_type())
}

#[tactic(auto, unfolding(crate::specs::Replies::length_line))]
fn put_length(out: &mut Vec<u8>, length: usize) -> Result<(), AllocError>
    ensures { OnOk result (out.new.items ≡ out.old.items ++ length_line length) }
{
    put_line(out, "Content-Length: ", itoa::Buffer::new().format(length))
}

#[tactic(auto, unfolding(crate::specs::Replies::connection_line))]
fn put_connection(out: &mut Vec<u8>, closes: bool) -> Result<(), AllocError>
    ensures { OnOk result (out.new.items ≡ out.old.items ++ connection_line closes) }
{
    put_line(out, "Connection: ", connection(closes))
}

/// Puts a word and what follows it, and the end of the line.
fn put_line(out: &mut Vec<u8>, word: &str, text: &str) -> Result<(), AllocError>
    ensures { OnOk result (out.new.items ≡ out.old.items ++ (word.now ++ (text.now ++ codes "\r\n"))) }
{
    put(out, word)?;
    put(out, text)?;
    put(out, "\r\n")
}

fn put(out: &mut Vec<u8>, text: &str) -> Result<(), AllocError>
    ensures { OnOk result (out.new.items ≡ out.old.items ++ text.now) }
{
    out.extend_from_slice(text.as_bytes())
}

fn connection(closes: bool) -> &'static str
    ensures { result.now ≡ connection closes }
{
    if closes { "close" } else { "keep-alive" }
}
