// ExportDeclarations, from behind their word `export` to their end, or to where a declaration or an
// expression goes on in them.
ghost use Rattle.std.specs.Prelude.{◌≡◌, ◌≤◌, ◌<◌, ◌+◌, ◌^◌, IfErr, IfOk, OnOk, length};
ghost use Rattle.es_scan.specs.Outlines.{IsOutlineOf, reach};

use crate::blanks::skip_blanks;
use crate::bytes::byte_at;
use crate::context::Context;
use crate::fault::{Stop, unclear};
use crate::frames::{Declares, FrameKind};
use crate::from_clause::{
    Declaration, expect_export_name, expect_name, expect_word, module_specifier, next_name, span,
    word_end,
};
use crate::outline::{ExportedName, Outline, Phase, Purpose, Rows};
use crate::state::State;

/// An export declaration whose word is `start..from`: where the scan goes on.
pub(crate) fn export_declaration(
    text: &[u8],
    start: usize,
    from: usize,
    context: &mut Context,
    found: &mut Outline,
) -> Result<usize, Stop>
    requires start { start < from }
    requires within { from ≤ length text.now }
    requires short { length text.now < 2 ^ 32 }
    requires sound { IsOutlineOf text.now found.old }
    requires reach { reach found.old ≤ from }
    ensures end { IfOk result (λ end. (from ≤ end) × (end ≤ length text.now)) }
    ensures sound { IsOutlineOf text.now found.new }
    ensures reach { IfOk result (λ end. reach found.new ≤ end) }
    ensures stop { IfErr result (λ stop. (reach found.new ≤ stop.at) × (stop.at ≤ length text.now)) }
{
    let at = skip_blanks(text, from)?;
    match byte_at(text, at) {
        b'*' => export_all(text, start, at, context, found),
        b'{' => named_exports(text, start, at, context, found),
        _ => exported_declaration(text, at, context, found),
    }
}

/// `export *`, perhaps with `as` and a name.
fn export_all(
    text: &[u8],
    start: usize,
    from: usize,
    context: &mut Context,
    found: &mut Outline,
) -> Result<usize, Stop>
    requires start { start < from }
    requires within { from < length text.now }
    requires short { length text.now < 2 ^ 32 }
    requires sound { IsOutlineOf text.now found.old }
    requires reach { reach found.old ≤ from }
    ensures end { IfOk result (λ end. (from < end) × (end ≤ length text.now)) }
    ensures sound { IsOutlineOf text.now found.new }
    ensures reach { IfOk result (λ end. reach found.new ≤ end) }
    ensures stop { IfErr result (λ stop. (reach found.new ≤ stop.at) × (stop.at ≤ length text.now)) }
{
    let first = found.exports.len();
    let mut purpose = Purpose::ExportAll;
    let mut names = Rows { from: 0, to: 0 };
    let mut at = skip_blanks(text, from + 1)?;
    if let Some(word) = word_end(text, at, b"as") {
        at = skip_blanks(text, word)?;
        let end = expect_export_name(text, at)?;
        found.put_export(
            text,
            ExportedName {
                name: span(at, end),
                local: None,
            },
        )?;
        at = skip_blanks(text, end)?;
        purpose = Purpose::Export;
        names = Rows {
            from: first,
            to: found.exports.len(),
        };
    }
    at = expect_word(text, at, b"from")?;
    at = skip_blanks(text, at)?;
    let declaration = Declaration {
        purpose,
        phase: Phase::Evaluation,
        start,
        names,
    };
    module_specifier(text, declaration, at, context, found)
}

/// NamedExports, perhaps with `from`. The braces are open while they are read, so that a scan that goes on
/// inside them meets their end.
fn named_exports(
    text: &[u8],
    start: usize,
    from: usize,
    context: &mut Context,
    found: &mut Outline,
) -> Result<usize, Stop>
    requires start { start < from }
    requires within { from < length text.now }
    requires short { length text.now < 2 ^ 32 }
    requires sound { IsOutlineOf text.now found.old }
    requires reach { reach found.old ≤ from }
    ensures end { IfOk result (λ end. (from < end) × (end ≤ length text.now)) }
    ensures sound { IsOutlineOf text.now found.new }
    ensures reach { IfOk result (λ end. reach found.new ≤ end) }
    ensures stop { IfErr result (λ stop. (reach found.new ≤ stop.at) × (stop.at ≤ length text.now)) }
{
    let first = found.exports.len();
    context.open(FrameKind::Block, from, State::After);
    let mut at = skip_blanks(text, from + 1)?;
    while byte_at(text, at) != b'}' {
        at = export_specifier(text, at, found)?;
        at = next_name(text, at)?;
    }
    context.close();
    context.state = State::Statement;
    let end = at + 1;
    at = skip_blanks(text, end)?;
    let Some(word) = word_end(text, at, b"from") else {
        return Ok(end)
    };
    at = skip_blanks(text, word)?;
    let declaration = Declaration {
        purpose: Purpose::Export,
        phase: Phase::Evaluation,
        start,
        names: Rows {
            from: first,
            to: found.exports.len(),
        },
    };
    module_specifier(text, declaration, at, context, found)
}

/// An ExportSpecifier: a name, or a name and what it is called for importers.
fn export_specifier(text: &[u8], from: usize, found: &mut Outline) -> Result<usize, Stop>
    requires within { from ≤ length text.now }
    requires short { length text.now < 2 ^ 32 }
    requires sound { IsOutlineOf text.now found.old }
    requires reach { reach found.old ≤ from }
    ensures end { IfOk result (λ end. (from < end) × (end ≤ length text.now)) }
    ensures sound { IsOutlineOf text.now found.new }
    ensures reach { IfOk result (λ end. reach found.new ≤ end) }
    ensures stop { IfErr result (λ stop. (reach found.new ≤ stop.at) × (stop.at ≤ length text.now)) }
    ensures grows { OnOk result (length found.old.exports.items ≤ length found.new.exports.items) }
{
    let end = expect_export_name(text, from)?;
    let local = span(from, end);
    let mut export = ExportedName {
        name: local,
        local: Some(local),
    };
    let mut behind = end;
    let at = skip_blanks(text, end)?;
    if let Some(word) = word_end(text, at, b"as") {
        let name = skip_blanks(text, word)?;
        behind = expect_export_name(text, name)?;
        export.name = span(name, behind);
    }
    found.put_export(text, export)?;
    Ok(behind)
}

/// What the word behind `export` begins.
#[derive(Clone, Copy)]
enum Exported {
    Default,
    Variables,
    Function,
    Async,
    Class,
    Other,
}

fn exported_by(word: &[u8]) -> Exported {
    match word {
        b"default" => Exported::Default,
        b"var" | b"let" | b"const" => Exported::Variables,
        b"function" => Exported::Function,
        b"async" => Exported::Async,
        b"class" => Exported::Class,
        _ => Exported::Other,
    }
}

/// `export` before a declaration or `default`, which stands at a place.
fn exported_declaration(
    text: &[u8],
    at: usize,
    context: &mut Context,
    found: &mut Outline,
) -> Result<usize, Stop>
    requires within { at ≤ length text.now }
    requires short { length text.now < 2 ^ 32 }
    requires sound { IsOutlineOf text.now found.old }
    requires reach { reach found.old ≤ at }
    ensures end { IfOk result (λ end. (at ≤ end) × (end ≤ length text.now)) }
    ensures sound { IsOutlineOf text.now found.new }
    ensures reach { IfOk result (λ end. reach found.new ≤ end) }
    ensures stop { IfErr result (λ stop. (reach found.new ≤ stop.at) × (stop.at ≤ length text.now)) }
{
    let end = expect_name(text, at)?;
    match exported_by(&text[at..end]) {
        Exported::Default => {
            context.state = State::Default;
            found.put_export(
                text,
                ExportedName {
                    name: span(at, end),
                    local: None,
                },
            )?;
            Ok(end)
        }
        Exported::Variables => {
            context.frame.declares = Declares::Exported;
            context.state = State::Binding;
            Ok(end)
        }
        Exported::Function => {
            context.state = State::Function;
            function_name(text, end, found)
        }
        Exported::Async => {
            let word = skip_blanks(text, end)?;
            let function = expect_word(text, word, b"function")?;
            context.state = State::Function;
            function_name(text, function, found)
        }
        Exported::Class => {
            context.state = State::Class;
            declared_name(text, end, found)
        }
        Exported::Other => Err(unclear(at)),
    }
}

/// The name of an exported function, perhaps behind a star.
fn function_name(text: &[u8], from: usize, found: &mut Outline) -> Result<usize, Stop>
    requires within { from ≤ length text.now }
    requires short { length text.now < 2 ^ 32 }
    requires sound { IsOutlineOf text.now found.old }
    requires reach { reach found.old ≤ from }
    ensures end { IfOk result (λ end. (from ≤ end) × (end ≤ length text.now)) }
    ensures sound { IsOutlineOf text.now found.new }
    ensures reach { IfOk result (λ end. reach found.new ≤ end) }
    ensures stop { IfErr result (λ stop. (reach found.new ≤ stop.at) × (stop.at ≤ length text.now)) }
{
    let at = skip_blanks(text, from)?;
    if byte_at(text, at) == b'*' {
        declared_name(text, at + 1, found)
    } else {
        declared_name(text, at, found)
    }
}

/// The name of an exported function or class.
fn declared_name(text: &[u8], from: usize, found: &mut Outline) -> Result<usize, Stop>
    requires within { from ≤ length text.now }
    requires short { length text.now < 2 ^ 32 }
    requires sound { IsOutlineOf text.now found.old }
    requires reach { reach found.old ≤ from }
    ensures end { IfOk result (λ end. (from ≤ end) × (end ≤ length text.now)) }
    ensures sound { IsOutlineOf text.now found.new }
    ensures reach { IfOk result (λ end. reach found.new ≤ end) }
    ensures stop { IfErr result (λ stop. (reach found.new ≤ stop.at) × (stop.at ≤ length text.now)) }
{
    let at = skip_blanks(text, from)?;
    let end = expect_name(text, at)?;
    put_local_name(text, at, end, found)
}

/// Puts an exported name that is its own local name.
pub(crate) fn put_local_name(
    text: &[u8],
    start: usize,
    end: usize,
    found: &mut Outline,
) -> Result<usize, Stop>
    requires from { start < end }
    requires to { end ≤ length text.now }
    requires short { length text.now < 2 ^ 32 }
    requires sound { IsOutlineOf text.now found.old }
    requires reach { reach found.old ≤ start }
    ensures end { IfOk result (λ r. r ≡ end) }
    ensures sound { IsOutlineOf text.now found.new }
    ensures reach { reach found.new ≤ end }
    ensures stop { IfErr result (λ stop. stop.at ≡ end) }
{
    let name = span(start, end);
    found.put_export(
        text,
        ExportedName {
            name,
            local: Some(name),
        },
    )?;
    Ok(end)
}
