// What the scan of a text tells of its module: its specifiers as modules of the folder.
ghost use Rattle.std.specs.List.{list_any};
ghost use Rattle.std.specs.Option.{option_to_list};
ghost use Rattle.std.specs.Prelude.{◌≡◌, ◌==◌, ◌++◌, ◌∷◌, [], IfOk, OnOk, filter};
ghost use Rattle.std.specs.Prelude.{if◌then◌else◌, length, not};
ghost use Rattle.module_semantics.specs.Entries.{has_name};
ghost use Rattle.import_scan.specs.Scanning.{add_import};
ghost use Rattle.skeletons.specs.Following.{add_found, gathered, imports_shown, inside, is_itself, shown};
ghost use Rattle.skeletons.specs.Following.{stands_in, target, targets};
ghost use Rattle.skeletons.specs.declared.following.Relation.TheVariants as relations;

use es_scan::{Accept, Accepted, ModuleSpecifier, Outline, Purpose, Span};
use file_names::resolve_specifier;
use hmr_types::limits::IMPORTS;
use hmr_types::{Analysis, ModName, Sequence};
use std::alloc::{AllocError, Global};

/// What a specifier makes of the module to which it leads.
#[derive(Clone, Copy)]
pub(crate) enum Relation {
    /// It is imported before the module is evaluated.
    Imported,
    /// It is imported by a call.
    Called,
    /// It is accepted.
    Accepted,
}

/// What the scan of the text of a module tells: the modules of the folder that it imports, those of
/// declarations first and then those of calls, each once and of more than 256 the first 257; which of these it
/// accepts; and whether it accepts itself or declines. It takes time linear in the text and the scan, but for
/// the look-up of imported names, of which there are at most 257.
pub(crate) fn shown(
    alloc: Global,
    name: &ModName,
    text: &[u8],
    outline: &Outline,
) -> Result<Analysis, AllocError>
    ensures { IfOk result (λ told. told ≡ shown name.now text.now outline.now) }
{
    let modules = modules(alloc, name, text, &outline.specifiers)?;
    Ok(Analysis {
        imports: Sequence::from_vec(modules.imports),
        exports: Sequence::new(alloc),
        self_accepts: accepts_itself(&outline.accepts),
        accepted: Sequence::from_vec(modules.accepted),
        declined: declines(&outline.declines),
    })
}

/// The modules of the folder to which specifiers lead.
#[derive(Drop)]
pub struct Followed {
    /// Those that are imported, each once; of more than 256 the first 257.
    pub imports: Vec<ModName>,
    /// Those of them that are accepted.
    pub accepted: Vec<ModName>,
}

/// The modules of the folder to which the specifiers of the text of a module lead, as its scan has them: those
/// that it imports, by declarations and then by calls, and those of them that it accepts. It takes time and
/// memory linear in the text and the specifiers, but for the look-up of imported names, of which there are at
/// most 257.
pub fn modules(
    alloc: Global,
    name: &ModName,
    text: &[u8],
    specifiers: &[ModuleSpecifier],
) -> Result<Followed, AllocError>
    ensures imports { IfOk result
        (λ m. m.imports.items ≡ imports_shown name.now text.now specifiers.now) }
    ensures accepted { IfOk result
        (λ m. m.accepted.items
        ≡ filter
        (λ n. has_name n (targets relations.Accepted name.now text.now specifiers.now))
        (imports_shown name.now text.now specifiers.now)) }
{
    let imports = imports(alloc, name, text, specifiers)?;
    let accepts = accepts(alloc, name, text, specifiers)?;
    let accepted = among(alloc, &imports, &accepts)?;
    Ok(Followed { imports, accepted })
}

/// The imported modules of the folder, each once; of more than 256 the first 257.
fn imports(
    alloc: Global,
    name: &ModName,
    text: &[u8],
    specifiers: &[ModuleSpecifier],
) -> Result<Vec<ModName>, AllocError>
    ensures { IfOk result (λ names. names.items ≡ imports_shown name.now text.now specifiers.now) }
{
    let mut names = Vec::new(alloc);
    gather(
        alloc,
        &mut names,
        Relation::Imported,
        name,
        text,
        specifiers,
    )?;
    gather(alloc, &mut names, Relation::Called, name, text, specifiers)?;
    Ok(names)
}

/// Gathers the modules to which the specifiers in a relation lead, behind those that came.
fn gather(
    alloc: Global,
    names: &mut Vec<ModName>,
    relation: Relation,
    name: &ModName,
    text: &[u8],
    specifiers: &[ModuleSpecifier],
) -> Result<(), AllocError>
    ensures { OnOk result
        (names.new.items
        ≡ gathered names.old.items (targets relation name.now text.now specifiers.now)) }
{
    for specifier in specifiers {
        let found = target(alloc, relation, name, text, specifier)?;
        add_found(names, found)?;
    }
    Ok(())
}

/// One more module behind those that came, where there is one, it is new and they aren't too many.
fn add_found(names: &mut Vec<ModName>, found: Option<ModName>) -> Result<(), AllocError>
    ensures { OnOk result (names.new.items ≡ add_found names.old.items found) }
{
    match found {
        Some(name) => add_import(names, name),
        None => Ok(()),
    }
}

pub(crate) fn add_import(names: &mut Vec<ModName>, name: ModName) -> Result<(), AllocError>
    ensures { OnOk result (names.new.items ≡ add_import names.old.items name) }
{
    let passed_over = names.contains(&name) || names.len() > IMPORTS;
    if !passed_over {
        names.push(name)?;
    }
    Ok(())
}

/// The accepted modules of the folder, as often as they are accepted.
fn accepts(
    alloc: Global,
    name: &ModName,
    text: &[u8],
    specifiers: &[ModuleSpecifier],
) -> Result<Vec<ModName>, AllocError>
    ensures { IfOk result
        (λ names. names.items ≡ targets relations.Accepted name.now text.now specifiers.now) }
{
    let mut names = Vec::new(alloc);
    for specifier in specifiers {
        let found = target(alloc, Relation::Accepted, name, text, specifier)?;
        put_found(&mut names, found)?;
    }
    Ok(names)
}

/// Puts a module, where there is one.
fn put_found(names: &mut Vec<ModName>, found: Option<ModName>) -> Result<(), AllocError>
    ensures { OnOk result (names.new.items ≡ names.old.items ++ option_to_list found) }
{
    if let Some(name) = found {
        names.push(name)?;
    }
    Ok(())
}

/// Those of the names that are among the others.
pub(crate) fn among(
    alloc: Global,
    names: &[ModName],
    others: &[ModName],
) -> Result<Vec<ModName>, AllocError>
    ensures { IfOk result (λ found. found.items ≡ filter (λ n. has_name n others.now) names.now) }
{
    let mut found = Vec::new(alloc);
    for name in names {
        put_among(&mut found, name, others)?;
    }
    Ok(found)
}

/// Puts a name, where it is among the others.
fn put_among(found: &mut Vec<ModName>, name: &ModName, others: &[ModName]) -> Result<(), AllocError>
    ensures { OnOk result
        (found.new.items
        ≡ found.old.items ++ (if has_name name.now others.now then name.now ∷ [] else [])) }
{
    if others.contains(name) {
        found.push(name.clone()?)?;
    }
    Ok(())
}

/// The module of the folder to which a specifier leads, where it stands in the relation.
fn target(
    alloc: Global,
    relation: Relation,
    name: &ModName,
    text: &[u8],
    specifier: &ModuleSpecifier,
) -> Result<Option<ModName>, AllocError>
    ensures { IfOk result (λ found. found ≡ target relation name.now text.now specifier.now) }
{
    if !stands_in(relation, specifier.purpose) {
        return Ok(None);
    }
    resolve_specifier(alloc, name, inside(text, specifier.literal))
}

/// Whether a specifier of a purpose stands in a relation.
fn stands_in(relation: Relation, purpose: Purpose) -> bool
    ensures { result ≡ stands_in relation purpose }
{
    match relation {
        Relation::Imported => {
            matches!(
                purpose,
                Purpose::Import | Purpose::Export | Purpose::ExportAll
            )
        }
        Relation::Called => matches!(purpose, Purpose::ImportCall),
        Relation::Accepted => matches!(purpose, Purpose::Accept),
    }
}

/// What stands between the quotes of a literal.
fn inside(text: &[u8], literal: Span) -> &[u8]
    ensures { result.now ≡ inside text.now literal }
{
    let start = literal.start as usize + 1;
    let end = (literal.end as usize).saturating_sub(1);
    if start <= end && end <= text.len() {
        &text[start..end]
    } else {
        &[]
    }
}

/// Whether one of these calls accepts the module itself.
fn accepts_itself(calls: &[Accept]) -> bool
    ensures { result ≡ list_any (λ a. is_itself a.accepted) calls.now }
{
    calls.iter().any(is_itself)
}

fn is_itself(call: &Accept) -> bool
    ensures { result ≡ is_itself call.now.accepted }
{
    matches!(call.accepted, Accepted::Itself)
}

/// Whether there is a call of `decline`.
fn declines(calls: &[u32]) -> bool
    ensures { result ≡ not (length calls.now == 0) }
{
    !calls.is_empty()
}
