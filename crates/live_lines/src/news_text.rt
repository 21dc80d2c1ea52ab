// What a terminal shows of the folder, and of the server as a whole.
ghost use Rattle.std.specs.Prelude.{◌≡◌, ◌++◌, OnOk, decimal};
ghost use Rattle.live_lines.specs.Lines.{anew_text, anew_words, away_text, edit_text, foreign_words};
ghost use Rattle.live_lines.specs.Lines.{passed_text, passed_words, stranger_text};

use crate::pieces::{put, put_both, put_counted, put_off, put_on, put_shown};
use crate::{AnewCause, Foreign, PassedCause, Style};
use hmr_types::{ModName, Text, Ver};
use std::alloc::AllocError;

/// Puts a module with its version, and what was done.
pub(crate) fn put_edit(
    out: &mut Vec<u8>,
    name: &ModName,
    version: Ver,
    done: &str,
) -> Result<(), AllocError>
    ensures { OnOk result (out.new.items ≡ out.old.items ++ edit_text name.now version done.now) }
{
    put(out, name.as_str())?;
    put_counted(out, " v", version, done)
}

/// Puts that a file was passed over.
pub(crate) fn put_passed(
    out: &mut Vec<u8>,
    style: Style,
    path: &Text,
    cause: PassedCause,
) -> Result<(), AllocError>
    ensures { OnOk result (out.new.items ≡ out.old.items ++ passed_text style path.now cause) }
{
    put_on(out, style, "33")?;
    put_shown(out, path.as_str())?;
    put_off(out, style)?;
    put(out, " passed over: ")?;
    put(out, passed_str(cause))
}

fn passed_str(cause: PassedCause) -> &'static str
    ensures { result.now ≡ passed_words cause }
{
    match cause {
        PassedCause::FileTooLong => "it has more than 64 MiB",
        PassedCause::TextTooLong => "its imports take more than 131,072 bytes",
        PassedCause::BadName => "no module can have this name",
        PassedCause::TooManyNames => "there are 8,192 modules",
        PassedCause::SourceTotal => "all sources together would have more than 32 MiB",
        PassedCause::Unreadable => "it can't be read",
        PassedCause::Outside => "it is a link to a file outside of the folder",
    }
}

/// Puts that a request was refused.
pub(crate) fn put_stranger(
    out: &mut Vec<u8>,
    style: Style,
    foreign: Foreign,
    told: &Text,
) -> Result<(), AllocError>
    ensures { OnOk result (out.new.items ≡ out.old.items ++ stranger_text style foreign told.now) }
{
    put_on(out, style, "33")?;
    put(out, foreign_str(foreign))?;
    put_shown(out, told.as_str())?;
    put_off(out, style)
}

fn foreign_str(foreign: Foreign) -> &'static str
    ensures { result.now ≡ foreign_words foreign }
{
    match foreign {
        Foreign::Host => "refused: a request for another host: ",
        Foreign::Origin => "refused: a connection from a page of another origin: ",
    }
}

/// Puts that the hub begins anew.
pub(crate) fn put_anew(out: &mut Vec<u8>, cause: AnewCause) -> Result<(), AllocError>
    ensures { OnOk result (out.new.items ≡ out.old.items ++ anew_text cause) }
{
    put_both(
        out,
        "the server begins anew, and all pages load again: ",
        anew_str(cause),
    )
}

fn anew_str(cause: AnewCause) -> &'static str
    ensures { result.now ≡ anew_words cause }
{
    match cause {
        AnewCause::TranscriptFull => "its transcript is full",
        AnewCause::NumbersSpent => "all of its numbers were given",
    }
}

/// Puts whether the folder is away.
pub(crate) fn put_away(out: &mut Vec<u8>, away: bool) -> Result<(), AllocError>
    ensures { OnOk result (out.new.items ≡ out.old.items ++ away_text away) }
{
    put(out, away_str(away))
}

fn away_str(away: bool) -> &'static str
    ensures { result.now ≡ away_text away }
{
    if away {
        "the folder can't be looked at; what is served stays"
    } else {
        "the folder is there again"
    }
}
