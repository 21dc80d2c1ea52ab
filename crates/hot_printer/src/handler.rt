// The text of callbacks: their parameters, and their statements inside one block.
ghost use Rattle.std.specs.Prelude.{◌≡◌, ◌++◌, OnOk};
ghost use Rattle.module_tree.specs.Tree.{handler_of, once_of, stmts_of};
ghost use Rattle.module_semantics.specs.Canon.{handler_text, list_handler_text, list_params, once_text};
ghost use Rattle.hot_printer.specs.Pieces.{body_text};

use crate::names::put_names;
use crate::statement::put_stmts;
use crate::text::{put, put_quoted};
use hmr_types::Name;
use module_tree::{HandlerCode, Once};
use std::alloc::{AllocError, Global};

/// Puts a callback or a host closure.
pub fn put_once(alloc: Global, out: &mut Vec<u8>, once: &Once) -> Result<(), AllocError>
    ensures { OnOk result (out.new.items ≡ out.old.items ++ once_text (once_of once.now)) }
{
    match once {
        Once::Code(code) => put_handler(alloc, out, code),
        Once::Host(label) => {
            put(out, "host(")?;
            put_quoted(out, label.as_str())?;
            put(out, ")")
        }
    }
}

/// Puts a callback, with its parameters in parentheses.
pub fn put_handler(alloc: Global, out: &mut Vec<u8>, code: &HandlerCode) -> Result<(), AllocError>
    ensures { OnOk result (out.new.items ≡ out.old.items ++ handler_text (handler_of code.now)) }
{
    put(out, "(")?;
    put_names(out, code.params.as_slice())?;
    put(out, ")")?;
    put_body(alloc, out, code)
}

/// Puts a callback of the list form.
pub fn put_list_handler(
    alloc: Global,
    out: &mut Vec<u8>,
    code: &HandlerCode,
) -> Result<(), AllocError>
    ensures { OnOk result (out.new.items ≡ out.old.items ++ list_handler_text (handler_of code.now)) }
{
    put_list_params(out, code.params.as_slice())?;
    put_body(alloc, out, code)
}

/// Puts parameters in brackets, unless there are none.
fn put_list_params(out: &mut Vec<u8>, params: &[Name]) -> Result<(), AllocError>
    ensures { OnOk result (out.new.items ≡ out.old.items ++ list_params params.now) }
{
    if params.is_empty() {
        return put(out, "()");
    }
    put(out, "([")?;
    put_names(out, params)?;
    put(out, "])")
}

/// Puts the arrow and the body of a callback.
fn put_body(alloc: Global, out: &mut Vec<u8>, code: &HandlerCode) -> Result<(), AllocError>
    ensures { OnOk result (out.new.items ≡ out.old.items ++ body_text (handler_of code.now)) }
{
    put(out, " => {\n")?;
    put_stmts(alloc, out, code.params.as_slice(), 1, &code.body)?;
    put(out, "}")
}
