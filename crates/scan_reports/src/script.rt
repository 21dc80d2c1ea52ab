// The report of a file of JavaScript.
use crate::lines::LineCount;
use crate::names::{name_value, part};
use es_scan::{Imported, ModuleSpecifier, Outline, Purpose, Span};
use file_names::resolve_specifier;
use hmr_types::ModName;
use serde_json::{Value, json};
use std::alloc::{AllocError, Global};

/// What is told of the module specifiers of a file.
#[derive(Drop)]
struct Gathered {
    imports: Vec<Value>,
    stars: Vec<Value>,
    through: Vec<Value>,
}

/// What the page's client is told of a file of JavaScript of the folder, by its scan: an object of `kind`,
/// `exports` (names), `stars` (the modules of its `export *`, null for one that isn't of the folder), `through`
/// (for each name that is exported again: itself, the module or null, and its name there) and `imports`: for
/// each module of the folder that it imports an object of `to`, `names` (`default`, `*` for all), `line`, and
/// where it is so `dynamic` and `type`. It takes time and memory linear in the text and the scan.
pub fn script_report(
    alloc: Global,
    name: &ModName,
    text: &[u8],
    outline: &Outline,
) -> Result<Value, AllocError> {
    let Gathered {
        imports,
        stars,
        through,
    } = gather_all(alloc, name, text, outline, 1)?;
    let mut exports = Vec::new(alloc);
    for export in &outline.exports {
        exports.push(name_value(alloc, text, export.name)?)?;
    }
    json!(in alloc; {
        "exports": Value::Array(exports),
        "imports": Value::Array(imports),
        "kind": "js",
        "stars": Value::Array(stars),
        "through": Value::Array(through),
    })
}

/// What a text of JavaScript imports, as in its report; its first line has this number.
pub(crate) fn script_imports(
    alloc: Global,
    name: &ModName,
    text: &[u8],
    outline: &Outline,
    first_line: u64,
) -> Result<Vec<Value>, AllocError> {
    let gathered = gather_all(alloc, name, text, outline, first_line)?;
    Ok(gathered.imports)
}

fn gather_all(
    alloc: Global,
    name: &ModName,
    text: &[u8],
    outline: &Outline,
    first_line: u64,
) -> Result<Gathered, AllocError> {
    let mut gathered = Gathered {
        imports: Vec::new(alloc),
        stars: Vec::new(alloc),
        through: Vec::new(alloc),
    };
    let mut lines = LineCount::new(first_line);
    for specifier in &outline.specifiers {
        let line = lines.line_at(text, specifier.literal.start);
        gather_one(alloc, &mut gathered, name, text, outline, specifier, line)?;
    }
    Ok(gathered)
}

fn gather_one(
    alloc: Global,
    gathered: &mut Gathered,
    name: &ModName,
    text: &[u8],
    outline: &Outline,
    specifier: &ModuleSpecifier,
    line: u64,
) -> Result<(), AllocError> {
    if specifier.purpose == Purpose::Accept {
        return Ok(());
    }
    let to = resolve_specifier(alloc, name, inside(text, specifier.literal))?;
    match specifier.purpose {
        Purpose::ExportAll => gathered.stars.push(module_value(alloc, &to)?)?,
        Purpose::Export => put_through(alloc, gathered, text, outline, specifier, &to)?,
        Purpose::Import | Purpose::ImportCall | Purpose::Accept => {}
    }
    let Some(to) = to else {
        return Ok(());
    };
    let names = names_of(alloc, text, outline, specifier)?;
    let import = import_value(alloc, text, specifier, &to, names, line)?;
    gathered.imports.push(import)?;
    Ok(())
}

fn import_value(
    alloc: Global,
    text: &[u8],
    specifier: &ModuleSpecifier,
    to: &ModName,
    names: Vec<Value>,
    line: u64,
) -> Result<Value, AllocError> {
    let names = Value::Array(names);
    let is_dynamic = specifier.purpose == Purpose::ImportCall;
    match specifier.type_attribute {
        Some(kind) => {
            let kind = name_value(alloc, text, kind)?;
            json!(in alloc; {"dynamic": is_dynamic, "line": line, "names": names, "to": to.as_str(), "type": kind})
        }
        None => {
            json!(in alloc; {"dynamic": is_dynamic, "line": line, "names": names, "to": to.as_str()})
        }
    }
}

// The names that a declaration takes of its module.
fn names_of(
    alloc: Global,
    text: &[u8],
    outline: &Outline,
    specifier: &ModuleSpecifier,
) -> Result<Vec<Value>, AllocError> {
    let mut names = Vec::new(alloc);
    let rows = specifier.names.from..specifier.names.to;
    match specifier.purpose {
        Purpose::Import => {
            if let Some(bindings) = outline.imports.get(rows) {
                for binding in bindings {
                    names.push(imported_value(alloc, text, binding.imported)?)?;
                }
            }
        }
        Purpose::Export => {
            if let Some(exports) = outline.exports.get(rows) {
                for export in exports {
                    names.push(local_value(alloc, text, export.local)?)?;
                }
            }
        }
        Purpose::ImportCall => names.push(Value::try_from_str(alloc, "*")?)?,
        Purpose::ExportAll | Purpose::Accept => {}
    }
    Ok(names)
}

fn imported_value(alloc: Global, text: &[u8], imported: Imported) -> Result<Value, AllocError> {
    match imported {
        Imported::Namespace => Value::try_from_str(alloc, "*"),
        Imported::Default => Value::try_from_str(alloc, "default"),
        Imported::Name(name) => name_value(alloc, text, name),
    }
}

// What is exported again: a name, or all of a module.
fn local_value(alloc: Global, text: &[u8], local: Option<Span>) -> Result<Value, AllocError> {
    match local {
        Some(name) => name_value(alloc, text, name),
        None => Value::try_from_str(alloc, "*"),
    }
}

fn put_through(
    alloc: Global,
    gathered: &mut Gathered,
    text: &[u8],
    outline: &Outline,
    specifier: &ModuleSpecifier,
    to: &Option<ModName>,
) -> Result<(), AllocError> {
    let Some(exports) = outline
        .exports
        .get(specifier.names.from..specifier.names.to)
    else {
        return Ok(());
    };
    for export in exports {
        let own = name_value(alloc, text, export.name)?;
        let its = local_value(alloc, text, export.local)?;
        let to = module_value(alloc, to)?;
        gathered.through.push(json!(in alloc; [own, to, its])?)?;
    }
    Ok(())
}

fn module_value(alloc: Global, to: &Option<ModName>) -> Result<Value, AllocError> {
    match to {
        Some(to) => Value::try_from_str(alloc, to.as_str()),
        None => Ok(Value::Null),
    }
}

// What stands between the quotes of a literal.
fn inside(text: &[u8], literal: Span) -> &[u8] {
    match part(text, literal) {
        [_first, inside @ .., _last] => inside,
        _ => &[],
    }
}
