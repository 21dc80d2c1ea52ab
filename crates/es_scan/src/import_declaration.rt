// ImportDeclarations, from behind their word `import` to their end. Behind `import` a word for the phase may
// stand, `defer` or `source`, which are names of default imports elsewhere.
ghost use Rattle.std.specs.Prelude.{◌≤◌, ◌<◌, ◌+◌, ◌^◌, IfErr, IfOk, OnOk, length};
ghost use Rattle.es_scan.specs.Outlines.{IsOutlineOf, reach};

use crate::blanks::skip_blanks;
use crate::bytes::{begins_identifier, byte_at, is_quote};
use crate::context::Context;
use crate::fault::{Fault, Stop};
use crate::frames::FrameKind;
use crate::from_clause::{
    Declaration, expect_byte, expect_export_name, expect_name, expect_word, module_specifier,
    next_name, span, word_end,
};
use crate::outline::{ImportBinding, Imported, Outline, Phase, Purpose, Rows};
use crate::state::State;

/// An import declaration whose word begins at `start`, from the token behind it: where the scan goes on.
pub(crate) fn import_declaration(
    text: &[u8],
    start: usize,
    from: usize,
    context: &mut Context,
    found: &mut Outline,
) -> Result<usize, Stop>
    requires start { start < from }
    requires within { from ≤ length text.now }
    requires short { length text.now < 2 ^ 32 }
    requires sound { IsOutlineOf text.now found.old }
    requires reach { reach found.old ≤ from }
    ensures end { IfOk result (λ end. (from ≤ end) × (end ≤ length text.now)) }
    ensures sound { IsOutlineOf text.now found.new }
    ensures reach { IfOk result (λ end. reach found.new ≤ end) }
    ensures stop { IfErr result (λ stop. (reach found.new ≤ stop.at) × (stop.at ≤ length text.now)) }
{
    let first = found.imports.len();
    let mut phase = Phase::Evaluation;
    let mut at = from;
    if !is_quote(byte_at(text, at)) {
        let clause = import_phase(text, at)?;
        phase = clause.phase;
        at = import_clause(text, clause.at, context, found)?;
        at = expect_word(text, at, b"from")?;
        at = skip_blanks(text, at)?;
    }
    let declaration = Declaration {
        purpose: Purpose::Import,
        phase,
        start,
        names: Rows {
            from: first,
            to: found.imports.len(),
        },
    };
    module_specifier(text, declaration, at, context, found)
}

/// The phase of an import, and the place of its clause.
#[derive(Clone, Copy)]
struct PhasedClause {
    phase: Phase,
    at: usize,
}

/// The phase that a word at a place gives, where it is one: `defer` is it before a star, and `source` before
/// a name that isn't the `from` of the clause.
fn import_phase(text: &[u8], at: usize) -> Result<PhasedClause, Fault>
    requires within { at ≤ length text.now }
    requires short { length text.now < 2 ^ 32 }
    ensures clause { IfOk result (λ clause. (at ≤ clause.at) × (clause.at ≤ length text.now)) }
    ensures fault { IfErr result (λ fault. (at ≤ fault.at) × (fault.at ≤ length text.now)) }
{
    if let Some(word) = word_end(text, at, b"defer") {
        let clause = skip_blanks(text, word)?;
        if byte_at(text, clause) == b'*' {
            return Ok(PhasedClause {
                phase: Phase::Defer,
                at: clause,
            });
        }
    }
    if let Some(word) = word_end(text, at, b"source") {
        let clause = skip_blanks(text, word)?;
        if begins_source_binding(text, clause)? {
            return Ok(PhasedClause {
                phase: Phase::Source,
                at: clause,
            });
        }
    }
    Ok(PhasedClause {
        phase: Phase::Evaluation,
        at,
    })
}

/// Whether a name stands at a place that isn't the `from` before a module specifier.
fn begins_source_binding(text: &[u8], at: usize) -> Result<bool, Fault>
    requires within { at ≤ length text.now }
    requires short { length text.now < 2 ^ 32 }
    ensures fault { IfErr result (λ fault. (at ≤ fault.at) × (fault.at ≤ length text.now)) }
{
    if let Some(word) = word_end(text, at, b"from") {
        let next = skip_blanks(text, word)?;
        return Ok(!is_quote(byte_at(text, next)));
    }
    Ok(begins_identifier(byte_at(text, at)))
}

/// An ImportClause, up to the word `from`.
fn import_clause(
    text: &[u8],
    from: usize,
    context: &mut Context,
    found: &mut Outline,
) -> Result<usize, Stop>
    requires within { from ≤ length text.now }
    requires short { length text.now < 2 ^ 32 }
    requires sound { IsOutlineOf text.now found.old }
    requires reach { reach found.old ≤ from }
    ensures end { IfOk result (λ end. (from < end) × (end ≤ length text.now)) }
    ensures sound { IsOutlineOf text.now found.new }
    ensures reach { IfOk result (λ end. reach found.new ≤ end) }
    ensures stop { IfErr result (λ stop. (reach found.new ≤ stop.at) × (stop.at ≤ length text.now)) }
    ensures grows { OnOk result (length found.old.imports.items ≤ length found.new.imports.items) }
{
    let mut at = from;
    if byte_at(text, at) != b'{' && byte_at(text, at) != b'*' {
        let end = expect_name(text, at)?;
        found.put_import(
            text,
            ImportBinding {
                imported: Imported::Default,
                local: span(at, end),
            },
        )?;
        at = skip_blanks(text, end)?;
        if byte_at(text, at) != b',' {
            return Ok(at);
        }
        at = skip_blanks(text, at + 1)?;
    }
    if byte_at(text, at) == b'*' {
        return namespace_import(text, at, found);
    }
    named_imports(text, at, context, found)
}

/// A NameSpaceImport: `* as` and a name.
fn namespace_import(text: &[u8], from: usize, found: &mut Outline) -> Result<usize, Stop>
    requires within { from < length text.now }
    requires short { length text.now < 2 ^ 32 }
    requires sound { IsOutlineOf text.now found.old }
    requires reach { reach found.old ≤ from }
    ensures end { IfOk result (λ end. (from < end) × (end ≤ length text.now)) }
    ensures sound { IsOutlineOf text.now found.new }
    ensures reach { IfOk result (λ end. reach found.new ≤ end) }
    ensures stop { IfErr result (λ stop. (reach found.new ≤ stop.at) × (stop.at ≤ length text.now)) }
    ensures grows { OnOk result (length found.old.imports.items ≤ length found.new.imports.items) }
{
    let word = skip_blanks(text, from + 1)?;
    let behind = expect_word(text, word, b"as")?;
    let at = skip_blanks(text, behind)?;
    let end = expect_name(text, at)?;
    found.put_import(
        text,
        ImportBinding {
            imported: Imported::Namespace,
            local: span(at, end),
        },
    )?;
    let next = skip_blanks(text, end)?;
    Ok(next)
}

/// NamedImports, with their braces. These are open while they are read, so that a scan that goes on inside
/// them meets their end.
fn named_imports(
    text: &[u8],
    from: usize,
    context: &mut Context,
    found: &mut Outline,
) -> Result<usize, Stop>
    requires within { from ≤ length text.now }
    requires short { length text.now < 2 ^ 32 }
    requires sound { IsOutlineOf text.now found.old }
    requires reach { reach found.old ≤ from }
    ensures end { IfOk result (λ end. (from < end) × (end ≤ length text.now)) }
    ensures sound { IsOutlineOf text.now found.new }
    ensures reach { IfOk result (λ end. reach found.new ≤ end) }
    ensures stop { IfErr result (λ stop. (reach found.new ≤ stop.at) × (stop.at ≤ length text.now)) }
    ensures grows { OnOk result (length found.old.imports.items ≤ length found.new.imports.items) }
{
    let mut at = expect_byte(text, from, b'{')?;
    context.open(FrameKind::Block, from, State::After);
    at = skip_blanks(text, at)?;
    while byte_at(text, at) != b'}' {
        at = import_specifier(text, at, found)?;
        at = next_name(text, at)?;
    }
    context.close();
    let next = skip_blanks(text, at + 1)?;
    Ok(next)
}

/// An ImportSpecifier: a name, or a name and what it is called here.
fn import_specifier(text: &[u8], from: usize, found: &mut Outline) -> Result<usize, Stop>
    requires within { from ≤ length text.now }
    requires short { length text.now < 2 ^ 32 }
    requires sound { IsOutlineOf text.now found.old }
    requires reach { reach found.old ≤ from }
    ensures end { IfOk result (λ end. (from < end) × (end ≤ length text.now)) }
    ensures sound { IsOutlineOf text.now found.new }
    ensures reach { IfOk result (λ end. reach found.new ≤ end) }
    ensures stop { IfErr result (λ stop. (reach found.new ≤ stop.at) × (stop.at ≤ length text.now)) }
    ensures grows { OnOk result (length found.old.imports.items ≤ length found.new.imports.items) }
{
    let end = expect_export_name(text, from)?;
    let name = span(from, end);
    let mut binding = ImportBinding {
        imported: Imported::Name(name),
        local: name,
    };
    let mut behind = end;
    let at = skip_blanks(text, end)?;
    if let Some(word) = word_end(text, at, b"as") {
        let local = skip_blanks(text, word)?;
        behind = expect_name(text, local)?;
        binding.local = span(local, behind);
    }
    found.put_import(text, binding)?;
    Ok(behind)
}
