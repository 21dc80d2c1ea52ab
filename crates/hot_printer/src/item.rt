// The text of an item: each production has its function.
ghost use Rattle.std.specs.Prelude.{◌≡◌, ◌++◌, OnOk, codes, map};
ghost use Rattle.hmr_types.specs.Event.{colon, with_mark};
ghost use Rattle.hmr_types.specs.ModName.{slash};
ghost use Rattle.std.specs.Option.{option_map};
ghost use Rattle.module_tree.specs.Tree.{expr_of, handler_of, item_of, once_of};
ghost use Rattle.module_semantics.specs.Canon.{call_text, comma_then, commas, declare_text};
ghost use Rattle.module_semantics.specs.Canon.{deps_handler_text, deps_text, deps_word, export_text};
ghost use Rattle.module_semantics.specs.Canon.{heard, heard_text, import_name_text, import_text, item_text};
ghost use Rattle.module_semantics.specs.Canon.{once_text, own_text, quoted, specs_text};
ghost use Rattle.module_tree.specs.Syntax.{declare, deps, own};

use crate::expression::put_expr;
use crate::handler::{put_handler, put_list_handler, put_once};
use crate::statement::put_stmt;
use crate::text::{put, put_event, put_quoted};
use hmr_types::{Name, Text, event_path};
use module_tree::{Expr, HandlerCode, ImportName, Item, Once};
use std::alloc::{AllocError, Global};

/// Puts an item.
pub fn put_item(alloc: Global, out: &mut Vec<u8>, item: &Item) -> Result<(), AllocError>
    ensures { OnOk result (out.new.items ≡ out.old.items ++ item_text (item_of item.now)) }
{
    match item {
        Item::Import { spec, names } => put_import(out, spec, names.as_slice()),
        Item::Declare {
            exported,
            mutable,
            name,
            value,
        } => put_declare(alloc, out, *exported, *mutable, name, value),
        Item::Do(stmt) => put_stmt(alloc, out, &[], 0, stmt),
        Item::Own(once) => put_own(alloc, out, once),
        Item::Deps { list, specs, call } => put_deps(alloc, out, *list, specs.as_slice(), call),
        Item::Dispose(once) => put_registered(alloc, out, "dispose", once),
        Item::Prune(once) => put_registered(alloc, out, "prune", once),
        Item::Decline => put(out, "import.meta.hot.decline();\n"),
    }
}

/// Puts a call that registers a handler.
fn put_registered(
    alloc: Global,
    out: &mut Vec<u8>,
    word: &str,
    once: &Once,
) -> Result<(), AllocError>
    ensures { OnOk result
        (out.new.items ≡ out.old.items ++ call_text word.now (once_text (once_of once.now))) }
{
    put_call(out, word)?;
    put_once(alloc, out, once)?;
    put(out, ");\n")
}

/// Puts `accept` of the module itself.
fn put_own(alloc: Global, out: &mut Vec<u8>, once: &Option<Once>) -> Result<(), AllocError>
    ensures { OnOk result (out.new.items ≡ out.old.items ++ item_text (own (option_map once_of once.now))) }
{
    put_call(out, "accept")?;
    put_handled(alloc, out, once)?;
    put(out, ");\n")
}

fn put_handled(alloc: Global, out: &mut Vec<u8>, once: &Option<Once>) -> Result<(), AllocError>
    ensures { OnOk result (out.new.items ≡ out.old.items ++ own_text (option_map once_of once.now)) }
{
    match once {
        None => Ok(()),
        Some(once) => put_once(alloc, out, once),
    }
}

/// Puts `accept` of dependencies, or `on` of an event.
fn put_deps(
    alloc: Global,
    out: &mut Vec<u8>,
    list: bool,
    specs: &[Text],
    call: &Option<HandlerCode>,
) -> Result<(), AllocError>
    ensures { OnOk result
        (out.new.items ≡ out.old.items ++ item_text (deps list specs.now (option_map handler_of call.now))) }
{
    let event = heard(list, specs, call);
    put_call(out, deps_word(event))?;
    put_heard(out, list, specs, event)?;
    put_deps_handler(alloc, out, list, call)?;
    put(out, ");\n")
}

/// The path of the event that a callback listens to, unless it listens to none.
fn heard<'a>(list: bool, specs: &'a [Text], call: &Option<HandlerCode>) -> Option<&'a [u8]>
    ensures { option_map (λ path. with_mark slash colon path.now) result
        ≡ heard list specs.now (option_map handler_of call.now) }
{
    match (list, specs, call) {
        (false, [spec], Some(_)) => event_path(spec.as_str().as_bytes()),
        _ => None,
    }
}

/// The word of a call for dependencies.
fn deps_word(event: Option<&[u8]>) -> &'static str
    ensures { result.now ≡ deps_word (option_map (λ path. with_mark slash colon path.now) event.entry) }
{
    match event {
        None => "accept",
        Some(_) => "on",
    }
}

/// Puts the event that a callback listens to, or the specifiers.
fn put_heard(
    out: &mut Vec<u8>,
    list: bool,
    specs: &[Text],
    event: Option<&[u8]>,
) -> Result<(), AllocError>
    ensures { OnOk result
        (out.new.items
        ≡ out.old.items
        ++ heard_text (option_map (λ path. with_mark slash colon path.now) event.entry) list specs.now) }
{
    match event {
        None => put_specs(out, list, specs),
        Some(path) => put_event(out, path),
    }
}

/// Puts the name of a call and its parenthesis.
fn put_call(out: &mut Vec<u8>, word: &str) -> Result<(), AllocError>
    ensures { OnOk result
        (out.new.items ≡ out.old.items ++ (codes "import.meta.hot." ++ (word.now ++ codes "("))) }
{
    put(out, "import.meta.hot.")?;
    put(out, word)?;
    put(out, "(")
}

/// Puts an import, with or without names.
fn put_import(out: &mut Vec<u8>, spec: &Text, names: &[ImportName]) -> Result<(), AllocError>
    ensures { OnOk result (out.new.items ≡ out.old.items ++ import_text spec.now names.now) }
{
    put(out, "import ")?;
    if let [first, rest @ ..] = names {
        put(out, "{ ")?;
        put_import_name(out, first)?;
        put_later_import_names(out, rest)?;
        put(out, " } from ")?;
    }
    put_quoted(out, spec.as_str())?;
    put(out, ";\n")
}

/// Puts a name of an import: with `as` where its local name is another.
fn put_import_name(out: &mut Vec<u8>, name: &ImportName) -> Result<(), AllocError>
    ensures { OnOk result (out.new.items ≡ out.old.items ++ import_name_text name.now) }
{
    if name.exported != name.local {
        put(out, name.exported.as_str())?;
        put(out, " as ")?;
    }
    put(out, name.local.as_str())
}

fn put_later_import_names(out: &mut Vec<u8>, names: &[ImportName]) -> Result<(), AllocError>
    ensures { OnOk result (out.new.items ≡ out.old.items ++ comma_then (map import_name_text names.now)) }
{
    for name in names {
        put(out, ", ")?;
        put_import_name(out, name)?;
    }
    Ok(())
}

fn put_declare(
    alloc: Global,
    out: &mut Vec<u8>,
    exported: bool,
    mutable: bool,
    name: &Name,
    value: &Expr,
) -> Result<(), AllocError>
    ensures { OnOk result
        (out.new.items
        ≡ out.old.items ++ item_text (declare exported mutable name.now (expr_of value.now))) }
{
    put(out, if exported { "export " } else { "" })?;
    put(out, if mutable { "let " } else { "const " })?;
    put(out, name.as_str())?;
    put(out, " = ")?;
    put_expr(alloc, out, &[], value)?;
    put(out, ";\n")
}

/// Puts the specifiers of an `accept`, in brackets where they are a list.
fn put_specs(out: &mut Vec<u8>, list: bool, specs: &[Text]) -> Result<(), AllocError>
    ensures { OnOk result (out.new.items ≡ out.old.items ++ specs_text list specs.now) }
{
    if list {
        put(out, "[")?;
        put_texts(out, specs)?;
        put(out, "]")
    } else {
        put_texts(out, specs)
    }
}

/// Puts texts in quotes, with commas between them.
fn put_texts(out: &mut Vec<u8>, texts: &[Text]) -> Result<(), AllocError>
    ensures { OnOk result (out.new.items ≡ out.old.items ++ commas (map quoted texts.now)) }
{
    if let [first, rest @ ..] = texts {
        put_quoted(out, first.as_str())?;
        put_later_texts(out, rest)?;
    }
    Ok(())
}

fn put_later_texts(out: &mut Vec<u8>, texts: &[Text]) -> Result<(), AllocError>
    ensures { OnOk result (out.new.items ≡ out.old.items ++ comma_then (map quoted texts.now)) }
{
    for text in texts {
        put(out, ", ")?;
        put_quoted(out, text.as_str())?;
    }
    Ok(())
}

/// Puts the callback behind the specifiers of an `accept`.
fn put_deps_handler(
    alloc: Global,
    out: &mut Vec<u8>,
    list: bool,
    call: &Option<HandlerCode>,
) -> Result<(), AllocError>
    ensures { OnOk result
        (out.new.items ≡ out.old.items ++ deps_handler_text list (option_map handler_of call.now)) }
{
    match call {
        None => Ok(()),
        Some(code) => {
            put(out, ", ")?;
            if list {
                put_list_handler(alloc, out, code)
            } else {
                put_handler(alloc, out, code)
            }
        }
    }
}
