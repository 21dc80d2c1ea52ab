// Calls of `import`.
ghost use Rattle.std.specs.Prelude.{◌≡◌, ◌++◌, IfOk, OnOk, drop};
ghost use Rattle.browser_texts.specs.Scripts.{call_splices, calls_before, calls_left, import_function};
ghost use Rattle.browser_texts.specs.Scripts.{literal_call, other_call};
ghost use Rattle.browser_texts.specs.Words.{first_visible};

use crate::words::{first_visible, put_word};
use es_scan::{ModuleSpecifier, Phase};
use std::alloc::{AllocError, Global};
use text_splices::Splice;

/// Puts the client's function in the place of the word of a call whose argument is a string literal alone.
pub(crate) fn put_literal_call(
    alloc: Global,
    splices: &mut Vec<Splice>,
    text: &[u8],
    specifier: &ModuleSpecifier,
) -> Result<(), AllocError>
    ensures { OnOk result
        (splices.new.items
        ≡ splices.old.items ++ literal_call text.now specifier.now specifier.now.phase) }
{
    match specifier.phase {
        Phase::Evaluation => {
            let options = byte_behind(text, specifier.literal.end as usize) == b',';
            put_call(alloc, splices, text, specifier.statement as usize, options)
        }
        Phase::Defer | Phase::Source => Ok(()),
    }
}

/// Puts those of the other calls that stand before a place: which calls are left.
pub(crate) fn put_calls_before<'a>(
    alloc: Global,
    splices: &mut Vec<Splice>,
    text: &[u8],
    limit: usize,
    calls: &'a [u32],
) -> Result<&'a [u32], AllocError>
    ensures put { OnOk result
        (splices.new.items ≡ splices.old.items ++ calls_before text.now limit calls.now) }
    ensures left { IfOk result (λ left. left.now ≡ calls_left limit calls.now) }
{
    for i in 0..calls.len() {
        if calls[i] as usize >= limit {
            return Ok(&calls[i..]);
        }
        put_other_call(alloc, splices, text, calls[i])?;
    }
    Ok(&[])
}

fn put_other_call(
    alloc: Global,
    splices: &mut Vec<Splice>,
    text: &[u8],
    at: u32,
) -> Result<(), AllocError>
    ensures { OnOk result (splices.new.items ≡ splices.old.items ++ other_call text.now at) }
{
    let start = at as usize;
    if byte_behind(text, start + 6) == b'.' {
        return Ok(());
    }
    put_call(alloc, splices, text, start, true)
}

fn put_call(
    alloc: Global,
    splices: &mut Vec<Splice>,
    text: &[u8],
    at: usize,
    options: bool,
) -> Result<(), AllocError>
    ensures { OnOk result (splices.new.items ≡ splices.old.items ++ call_splices text.now at options) }
{
    put_word(
        alloc,
        splices,
        text,
        at,
        b"import",
        import_function(options),
    )
}

/// The function that a call of `import` calls. It begins by a word, as the call does, so that no line before it
/// goes on in it; and with one parameter where the call has no options, since older browsers can't parse a
/// second argument of `import`.
fn import_function(options: bool) -> &'static [u8]
    ensures { result.now ≡ import_function options }
{
    if options {
        b"new(import.meta.hotImport??function(s,o){return import(s,o)})"
    } else {
        b"new(import.meta.hotImport??function(s){return import(s)})"
    }
}

/// The first byte behind a place that is no blank; 0 where there is none.
fn byte_behind(text: &[u8], at: usize) -> u8
    ensures { result ≡ first_visible (drop at text.now) }
{
    if at <= text.len() {
        first_visible(&text[at..])
    } else {
        0
    }
}
