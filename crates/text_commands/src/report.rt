// The bytes of a report: a canonical text with the lines of its analysis, or the line of a fault.
ghost use Rattle.std.specs.Prelude.{◌≡◌, ◌++◌, IfOk, OnOk, map};
ghost use Rattle.module_tree.specs.Tree.{module_of};
ghost use Rattle.play_script.specs.Texts.{names_text};
ghost use Rattle.text_commands.specs.Checking.{analysis_lines, analysis_report, flag_line, names_line};
ghost use Rattle.text_commands.specs.Checking.{text_fault_line};

use hmr_types::{Analysis, ModName, Name, TextFault};
use hot_parser::print;
use module_tree::Module;
use play_text::fault_str;
use std::alloc::{AllocError, Global};

/// The canonical text of a module, and the lines of its analysis.
pub fn analysis_report(
    alloc: Global,
    tree: &Module,
    analysis: &Analysis,
) -> Result<Vec<u8>, AllocError>
    ensures { IfOk result (λ bytes. bytes.items ≡ analysis_report (module_of tree.now) analysis.now) }
{
    let mut out = print(alloc, tree)?;
    put_analysis(alloc, &mut out, analysis)?;
    Ok(out)
}

/// The line of a fault.
pub fn fault_report(alloc: Global, fault: TextFault) -> Result<Vec<u8>, AllocError>
    ensures { IfOk result (λ bytes. bytes.items ≡ text_fault_line fault) }
{
    let TextFault { line, col, word } = fault;
    let word = fault_str(word);
    let told = format!(in alloc; "fault {line}:{col} {word}\n")?;
    Ok(told.into_bytes())
}

fn put_analysis(alloc: Global, out: &mut Vec<u8>, analysis: &Analysis) -> Result<(), AllocError>
    ensures { OnOk result (out.new.items ≡ out.old.items ++ analysis_lines analysis.now) }
{
    let imports = words_of_modules(alloc, analysis.imports.as_slice())?;
    let exports = words_of_names(alloc, analysis.exports.as_slice())?;
    let accepted = words_of_modules(alloc, analysis.accepted.as_slice())?;
    put_line(out, "imports", &imports)?;
    put_line(out, "exports", &exports)?;
    put_flag(out, "self\n", analysis.self_accepts)?;
    put_line(out, "accepts", &accepted)?;
    put_flag(out, "declines\n", analysis.declined)
}

fn words_of_modules(alloc: Global, names: &[ModName]) -> Result<Vec<&str>, AllocError>
    ensures { IfOk result (λ words. map (λ w. w.now) words.items ≡ names.now) }
{
    let mut words = Vec::new(alloc);
    for name in names {
        words.push(name.as_str())?;
    }
    Ok(words)
}

fn words_of_names(alloc: Global, names: &[Name]) -> Result<Vec<&str>, AllocError>
    ensures { IfOk result (λ words. map (λ w. w.now) words.items ≡ names.now) }
{
    let mut words = Vec::new(alloc);
    for name in names {
        words.push(name.as_str())?;
    }
    Ok(words)
}

/// Puts a line of a word and what it tells, where it tells something.
fn put_line(out: &mut Vec<u8>, word: &str, told: &[&str]) -> Result<(), AllocError>
    ensures { OnOk result
        (out.new.items ≡ out.old.items ++ names_line word.now (map (λ w. w.now) told.now)) }
{
    if told.is_empty() {
        return Ok(());
    }
    put(out, word)?;
    put_words(out, told)?;
    put(out, "\n")
}

/// Puts words, each behind a space.
fn put_words(out: &mut Vec<u8>, words: &[&str]) -> Result<(), AllocError>
    ensures { OnOk result (out.new.items ≡ out.old.items ++ names_text (map (λ w. w.now) words.now)) }
{
    for word in words {
        put(out, " ")?;
        put(out, *word)?;
    }
    Ok(())
}

fn put_flag(out: &mut Vec<u8>, line: &str, stands: bool) -> Result<(), AllocError>
    ensures { OnOk result (out.new.items ≡ out.old.items ++ flag_line line.now stands) }
{
    if stands {
        put(out, line)?;
    }
    Ok(())
}

fn put(out: &mut Vec<u8>, text: &str) -> Result<(), AllocError>
    ensures { OnOk result (out.new.items ≡ out.old.items ++ text.now) }
{
    out.extend_from_slice(text.as_bytes())
}
