// The lines of an outline: what was found, list by list, each at its line and column.
use es_scan::{
    Accepted, Fault, FaultKind, ImportBinding, Imported, ModuleSpecifier, Outline, Phase, Purpose,
    Span, place_of, scan,
};
use std::alloc::Global;
use std::io::{self, Write};

/// What a module specifier is for.
fn purpose_words(purpose: Purpose) -> &'static str {
    match purpose {
        Purpose::Import => "import",
        Purpose::Export => "export from",
        Purpose::ExportAll => "export all from",
        Purpose::ImportCall => "import call",
        Purpose::Accept => "accept",
    }
}

/// The phase of an import, where it isn't the usual one.
fn phase_words(phase: Phase) -> &'static str {
    match phase {
        Phase::Evaluation => "",
        Phase::Defer => ", deferred",
        Phase::Source => ", its source",
    }
}

/// What a call of `accept` accepts.
fn accepted_words(accepted: Accepted) -> &'static str {
    match accepted {
        Accepted::Itself => "accepts itself",
        Accepted::Modules => "accepts modules",
        Accepted::Unclear => "accepts what isn't read off the text",
    }
}

/// Why a text is refused.
fn fault_words(kind: FaultKind) -> &'static str {
    match kind {
        FaultKind::OpenString => "string isn't closed",
        FaultKind::OpenTemplate => "template isn't closed",
        FaultKind::OpenComment => "comment isn't closed",
        FaultKind::OpenRegularExpression => "regular expression isn't closed",
        FaultKind::OpenBracket => "bracket isn't closed",
        FaultKind::UnmatchedBracket => "bracket closes nothing",
        FaultKind::OutOfMemory => "out of memory",
    }
}

/// Writes the line and column of a place, before what a line tells.
pub fn write_place<W: Write>(out: &mut W, text: &[u8], at: u32) -> io::Result<()> {
    let at = (at as usize).min(text.len());
    if text.len() >= u32::MAX as usize {
        return Ok(());
    }
    let place = place_of(text, at);
    let line = place.line;
    let column = place.column;
    write!(out, "{line}:{column} ")
}

/// Writes the bytes from a place to another.
pub fn write_bytes<W: Write>(out: &mut W, text: &[u8], from: u32, to: u32) -> io::Result<()> {
    match text.get(from as usize..to as usize) {
        Some(bytes) => out.write_all(bytes),
        None => Ok(()),
    }
}

/// Writes the bytes of a span.
fn write_span<W: Write>(out: &mut W, text: &[u8], span: Span) -> io::Result<()> {
    write_bytes(out, text, span.start, span.end)
}

/// Writes a line for the fault of a text.
fn write_fault<W: Write>(out: &mut W, text: &[u8], fault: Fault) -> io::Result<()> {
    write_place(out, text, fault.at)?;
    let words = fault_words(fault.kind);
    writeln!(out, "{words}")
}

/// Writes a line for a module specifier.
fn write_specifier<W: Write>(
    out: &mut W,
    text: &[u8],
    specifier: &ModuleSpecifier,
) -> io::Result<()> {
    write_place(out, text, specifier.literal.start)?;
    let words = purpose_words(specifier.purpose);
    write!(out, "{words} ")?;
    write_span(out, text, specifier.literal)?;
    if let Some(literal) = specifier.type_attribute {
        write!(out, ", of type ")?;
        write_span(out, text, literal)?;
    }
    let phase = phase_words(specifier.phase);
    writeln!(out, "{phase}")
}

/// Writes a line for a name that an import declaration binds.
fn write_import<W: Write>(out: &mut W, text: &[u8], binding: &ImportBinding) -> io::Result<()> {
    write_place(out, text, binding.local.start)?;
    write!(out, "binds ")?;
    write_span(out, text, binding.local)?;
    write!(out, " to ")?;
    match binding.imported {
        Imported::Namespace => writeln!(out, "*"),
        Imported::Default => writeln!(out, "default"),
        Imported::Name(name) => {
            write_span(out, text, name)?;
            writeln!(out)
        }
    }
}

/// Writes a line for a place and what stands there.
fn write_words<W: Write>(out: &mut W, text: &[u8], at: u32, words: &str) -> io::Result<()> {
    write_place(out, text, at)?;
    writeln!(out, "{words}")
}

/// Writes the lines of an outline.
fn write_found<W: Write>(out: &mut W, text: &[u8], found: &Outline) -> io::Result<()> {
    for specifier in &found.specifiers {
        write_specifier(out, text, specifier)?;
    }
    for binding in &found.imports {
        write_import(out, text, binding)?;
    }
    for export in &found.exports {
        write_place(out, text, export.name.start)?;
        write!(out, "exports ")?;
        write_span(out, text, export.name)?;
        writeln!(out)?;
    }
    for accept in &found.accepts {
        write_words(out, text, accept.call, accepted_words(accept.accepted))?;
    }
    for at in &found.declines {
        write_words(out, text, *at, "declines")?;
    }
    for at in &found.computed {
        write_words(
            out,
            text,
            *at,
            "import call of what isn't read off the text",
        )?;
    }
    for at in &found.unclear {
        write_words(out, text, *at, "declaration isn't known from here")?;
    }
    if let Some(at) = found.first_meta {
        write_words(out, text, at, "import.meta")?;
    }
    if let Some(comment) = found.hashbang {
        write_words(out, text, comment.start, "hashbang")?;
    }
    write_words(out, text, found.first_statement, "first statement")
}

/// Writes the lines of the outline of a text, or the one line of its fault.
pub fn write_outline<W: Write>(alloc: Global, out: &mut W, text: &[u8]) -> io::Result<()> {
    if text.len() >= u32::MAX as usize {
        return writeln!(out, "1:1 text is too long");
    }
    match scan(alloc, text) {
        Ok(found) => write_found(out, text, &found),
        Err(fault) => write_fault(out, text, fault),
    }
}
