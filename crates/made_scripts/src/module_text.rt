// The modules of a page: their names and their texts. The page is a tree in which each module imports up
// to four others.
ghost use Rattle.std.specs.Prelude.{◌≡◌, ◌++◌, ◌<◌, IfOk, OnOk, string_bytes};
ghost use Rattle.std.specs.List.{flat_map};
ghost use Rattle.made_scripts.specs.Making.{accept_line, children, import_line, import_of, module_name};
ghost use Rattle.made_scripts.specs.Making.{module_text, value_line};

use hmr_types::{ModName, NameFault};
use std::alloc::{AllocError, Global};

/// The name of the module of this number.
pub(crate) fn module_name(alloc: Global, number: u32) -> Result<ModName, AllocError>
    ensures { IfOk result (λ name. name ≡ module_name number) }
{
    let text = name_text(alloc, number)?;
    match ModName::read(alloc, text.as_bytes()) {
        Ok(name) => Ok(name),
        Err(NameFault::NoMemory) => Err(AllocError),
        Err(NameFault::NotAName) => unreachable!(),
    }
}

#[tactic(auto, unfolding(crate::specs::Making::module_name))]
fn name_text(alloc: Global, number: u32) -> Result<String, AllocError>
    ensures { IfOk result (λ text. string_bytes text ≡ module_name number) }
{
    format!(in alloc; "/m{number}.js")
}

/// The text of a module of a page of `count`: it imports its children, exports a value, and accepts
/// itself where `drawn` is 0.
#[tactic(auto, unfolding(crate::specs::Making::module_text))]
pub(crate) fn module_text(
    alloc: Global,
    count: u32,
    number: u32,
    value: u32,
    drawn: u32,
) -> Result<Vec<u8>, AllocError>
    requires { number < 4096 }
    ensures { IfOk result (λ text. text.items ≡ module_text count number value drawn) }
{
    let mut text = Vec::new(alloc);
    put_imports(alloc, &mut text, count, number)?;
    put_value(alloc, &mut text, value)?;
    put_acceptance(&mut text, drawn)?;
    Ok(text)
}

fn put_imports(alloc: Global, text: &mut Vec<u8>, count: u32, number: u32) -> Result<(), AllocError>
    requires { number < 4096 }
    ensures { OnOk result (text.new.items ≡ text.old.items ++ flat_map (import_of count) (children number)) }
{
    let children = children(number);
    for child in &children {
        put_import(alloc, text, count, *child)?;
    }
    Ok(())
}

/// The numbers of the modules that a module imports, as far as there are such modules.
fn children(number: u32) -> [u32; 4]
    requires { number < 4096 }
    ensures { result ≡ children number }
{
    let first = 4 * number + 1;
    [first, first + 1, first + 2, first + 3]
}

/// Puts the import of a module, where there is such a module.
fn put_import(alloc: Global, text: &mut Vec<u8>, count: u32, child: u32) -> Result<(), AllocError>
    ensures { OnOk result (text.new.items ≡ text.old.items ++ import_of count child) }
{
    if child < count {
        let line = import_line(alloc, child)?;
        text.extend_from_slice(line.as_bytes())?;
    }
    Ok(())
}

fn import_line(alloc: Global, child: u32) -> Result<String, AllocError>
    ensures { IfOk result (λ line. string_bytes line ≡ import_line child) }
{
    format!(in alloc; "import {{ v as v{child} }} from \"./m{child}.js\";\n")
}

fn put_value(alloc: Global, text: &mut Vec<u8>, value: u32) -> Result<(), AllocError>
    ensures { OnOk result (text.new.items ≡ text.old.items ++ value_line value) }
{
    let line = value_line(alloc, value)?;
    text.extend_from_slice(line.as_bytes())
}

fn value_line(alloc: Global, value: u32) -> Result<String, AllocError>
    ensures { IfOk result (λ line. string_bytes line ≡ value_line value) }
{
    format!(in alloc; "export const v = {value};\n")
}

fn put_acceptance(text: &mut Vec<u8>, drawn: u32) -> Result<(), AllocError>
    ensures { OnOk result (text.new.items ≡ text.old.items ++ accept_line drawn) }
{
    if drawn == 0 {
        text.extend_from_slice(b"import.meta.hot.accept();\n")?;
    }
    Ok(())
}
