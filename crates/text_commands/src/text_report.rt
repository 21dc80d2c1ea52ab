// The report of a module text: its tokens, its grammar and its names are read, then its specifiers and
// imports. What there is to tell of it is its canonical text with its analysis, or its first fault.
ghost use Rattle.std.specs.Prelude.{◌≡◌, ◌≤◌, IfOk, length};
ghost use Rattle.hmr_types.specs.declared.limits.TheConstants.{TEXT_BYTES};
ghost use Rattle.module_tree.specs.Tree.{module_of};
ghost use Rattle.import_scan.specs.Analysing.{told_word};
ghost use Rattle.text_commands.specs.Checking.{report, tree_report};

use crate::report::{analysis_report, fault_report};
use hmr_types::{FaultWord, ModName, SpecFault, TextFault};
use hot_parser::parse;
use import_scan::{ScanFault, analyse};
use module_tree::Module;
use std::alloc::{AllocError, Global};

/// The report of a text as that of the module `name`.
///
/// That of a module is its canonical text, and behind it a line each for the modules that it imports, the
/// names that it exports, that it accepts itself, the imported modules that it accepts, and that it
/// declines, of these lines those that have something to tell; the report of another text is the line of
/// its first fault. It fails only where memory runs out. The time is linear in the text, but for the look-up
/// of names.
pub fn report_of(alloc: Global, name: &ModName, text: &[u8]) -> Result<Vec<u8>, AllocError>
    requires short { length text.now ≤ TEXT_BYTES }
    ensures { IfOk result (λ bytes. bytes.items ≡ report name.now text.now) }
{
    match parse(alloc, text) {
        Ok(tree) => tree_report(alloc, name, &tree),
        Err(fault) => match fault.text_fault() {
            Some(fault) => fault_report(alloc, fault),
            None => Err(AllocError),
        },
    }
}

/// The report of what a text reads as. A fault of specifiers and imports has no place.
fn tree_report(alloc: Global, name: &ModName, tree: &Module) -> Result<Vec<u8>, AllocError>
    ensures { IfOk result (λ bytes. bytes.items ≡ tree_report name.now (module_of tree.now)) }
{
    match analyse(alloc, name, tree) {
        Ok(analysis) => analysis_report(alloc, tree, &analysis),
        Err(fault) => match told_word(fault) {
            Some(word) => fault_report(
                alloc,
                TextFault {
                    line: 0,
                    col: 0,
                    word,
                },
            ),
            None => Err(AllocError),
        },
    }
}

/// The word of a refusal, None where memory ran out.
fn told_word(fault: ScanFault) -> Option<FaultWord>
    ensures { result ≡ told_word fault }
{
    match fault {
        ScanFault::Spec(SpecFault::Bare) => Some(FaultWord::SpecifierBare),
        ScanFault::Spec(SpecFault::Climbs) => Some(FaultWord::SpecifierClimbs),
        ScanFault::Spec(SpecFault::Empty) => Some(FaultWord::SpecifierEmpty),
        ScanFault::Spec(SpecFault::TooLong) => Some(FaultWord::SpecifierTooLong),
        ScanFault::Spec(SpecFault::BadSegment) => Some(FaultWord::SpecifierBadSegment),
        ScanFault::TooManyImports => Some(FaultWord::TooManyImports),
        ScanFault::Spec(SpecFault::NoMemory) | ScanFault::NoMemory => None,
    }
}
