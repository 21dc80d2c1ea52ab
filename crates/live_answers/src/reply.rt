// Answers: a status, a body with its media type, and whether the connection is closed after it. An answer to
// HEAD has no body and the length of the one that it would have.
ghost use Rattle.std.specs.Prelude.{◌≡◌, ◌++◌, [], IfOk, OnOk, codes, if◌then◌else◌, length};
ghost use Rattle.live_answers.specs.Replies.{connection, connection_line, end_lines, fixed_lines, head_text};
ghost use Rattle.live_answers.specs.Replies.{done_text, length_line, ok, plain, refusal, reply_text};
ghost use Rattle.live_answers.specs.Replies.{status_lines, told_of, type_line};

use crate::status::{Refusal, Status};
use crate::writing::{put, put_line};
use std::alloc::{AllocError, Global};

/// An answer.
#[derive(Drop)]
pub(crate) struct Reply {
    status: Status,
    media: &'static str,
    // The bytes of the body, also where it isn't sent.
    body: Vec<u8>,
    bare: bool,
    closes: bool,
}

impl Reply {
    /// The answer with this body.
    pub(crate) fn ok(media: &'static str, body: Vec<u8>, bare: bool, closes: bool) -> Reply
        ensures { told_of result ≡ ok media.now body.items bare closes }
    {
        Reply {
            status: Status::Ok,
            media,
            body,
            bare,
            closes,
        }
    }

    /// The answer that refuses a request.
    pub(crate) fn refusal(
        alloc: Global,
        why: Refusal,
        bare: bool,
        closes: bool,
    ) -> Result<Reply, AllocError>
        ensures { IfOk result (λ reply. told_of reply ≡ refusal why bare closes) }
    {
        Reply::plain(alloc, why.status(), why.sentence(), bare, closes)
    }

    /// An answer of a number, its reason, and a sentence.
    pub(crate) fn plain(
        alloc: Global,
        status: Status,
        sentence: &str,
        bare: bool,
        closes: bool,
    ) -> Result<Reply, AllocError>
        ensures { IfOk result (λ reply. told_of reply ≡ plain status sentence.now bare closes) }
    {
        let mut body = Vec::from_slice(alloc, status.text().as_bytes())?;
        put(&mut body, "\n")?;
        put(&mut body, sentence)?;
        put(&mut body, "\n")?;
        Ok(Reply {
            status,
            media: "text/plain; charset=utf-8",
            body,
            bare,
            closes,
        })
    }

    /// The bytes of the answer.
    pub(crate) fn text(&self, alloc: Global) -> Result<Vec<u8>, AllocError>
        ensures { IfOk result (λ text. text.items ≡ reply_text (told_of self.now)) }
    {
        let mut text = Vec::new(alloc);
        put_head(
            &mut text,
            self.status,
            self.media,
            self.body.len(),
            self.closes,
        )?;
        put_body(&mut text, &self.body, self.bare)?;
        Ok(text)
    }
}

/// The bytes of the answer that all is done.
#[tactic(auto, unfolding(crate::specs::Replies::done_text))]
pub(crate) fn done_text(alloc: Global, closes: bool) -> Result<Vec<u8>, AllocError>
    ensures { IfOk result (λ text. text.items ≡ done_text closes) }
{
    let mut text = Vec::new(alloc);
    put_status(&mut text, Status::NoContent)?;
    put_end(&mut text, closes)?;
    Ok(text)
}

// Puts the lines of an answer before its body.
#[tactic(auto, unfolding(crate::specs::Replies::head_text))]
fn put_head(
    out: &mut Vec<u8>,
    status: Status,
    media: &str,
    length: usize,
    closes: bool,
) -> Result<(), AllocError>
    ensures { OnOk result (out.new.items ≡ out.old.items ++ head_text status media.now length closes) }
{
    put_status(out, status)?;
    put_type(out, media)?;
    put_length(out, length)?;
    put_end(out, closes)
}

// Puts the lines that each answer has at its end, with the empty line.
#[tactic(auto, unfolding(crate::specs::Replies::end_lines))]
fn put_end(out: &mut Vec<u8>, closes: bool) -> Result<(), AllocError>
    ensures { OnOk result (out.new.items ≡ out.old.items ++ end_lines closes) }
{
    put_fixed(out)?;
    put_connection(out, closes)?;
    put(out, "\r\n")
}

// Puts that nothing is to be kept, guessed, or taken into pages of other servers.
#[tactic(auto, unfolding(crate::specs::Replies::fixed_lines))]
fn put_fixed(out: &mut Vec<u8>) -> Result<(), AllocError>
    ensures { OnOk result (out.new.items ≡ out.old.items ++ fixed_lines) }
{
    put(
        out,
        "Cache-Control: no-store\r\nX-Content-Type-Options: nosniff\r\n",
    )?;
    put(out, "Cross-Origin-Resource-Policy: same-origin\r\n")
}

// Puts the body, unless it is left out.
fn put_body(out: &mut Vec<u8>, body: &[u8], bare: bool) -> Result<(), AllocError>
    ensures { OnOk result (out.new.items ≡ out.old.items ++ (if bare then [] else body.now)) }
{
    if bare {
        return Ok(());
    }
    out.extend_from_slice(body)
}

#[tactic(auto, unfolding(crate::specs::Replies::status_lines))]
fn put_status(out: &mut Vec<u8>, status: Status) -> Result<(), AllocError>
    ensures { OnOk result (out.new.items ≡ out.old.items ++ status_lines status) }
{
    put_line(out, "HTTP/1.1 ", status.text())?;
    put(out, status.allowed())
}

#[tactic(auto, unfolding(crate::specs::Replies::type_line))]
fn put_type(out: &mut Vec<u8>, media: &str) -> Result<(), AllocError>
    ensures { OnOk result (out.new.items ≡ out.old.items ++ type_line media.now) }
{
    put_line(out, "Content-Type: ", media)
}

#[tactic(auto, unfolding(crate::specs::Replies::length_line))]
fn put_length(out: &mut Vec<u8>, length: usize) -> Result<(), AllocError>
    ensures { OnOk result (out.new.items ≡ out.old.items ++ length_line length) }
{
    put_line(out, "Content-Length: ", itoa::Buffer::new().format(length))
}

#[tactic(auto, unfolding(crate::specs::Replies::connection_line))]
fn put_connection(out: &mut Vec<u8>, closes: bool) -> Result<(), AllocError>
    ensures { OnOk result (out.new.items ≡ out.old.items ++ connection_line closes) }
{
    put_line(out, "Connection: ", connection(closes))
}

fn connection(closes: bool) -> &'static str
    ensures { result.now ≡ connection closes }
{
    if closes { "close" } else { "keep-alive" }
}
