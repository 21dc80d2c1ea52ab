// A module text is parsed and analysed.
ghost use Rattle.std.specs.Prelude.{◌≡◌, ◌+◌, ◌<◌, ◌^◌, IfOk, length};
ghost use Rattle.module_tree.specs.Tree.{module_of};
ghost use Rattle.module_semantics.specs.ModuleText.{parsing};
ghost use Rattle.module_semantics.specs.Analysis.{analysed, scan_outcome, transformed};
ghost use Rattle.import_scan.specs.Analysing.{told_word};
ghost use Rattle.transforms.specs.Transform.{Transform};

use crate::analyse;
use hmr_types::{FaultWord, ModName, Outcome, SpecFault, TextFault};
use hot_parser::parse;
use module_semantics::ScanFault;
use module_tree::Module;
use std::alloc::{AllocError, Global};
use transforms::Transformed;

/// Parses and analyses a text as the module `base`. The outcome is good, with the analysis, exactly
/// where the text reads as a module whose specifiers mean modules, at most 256 of them imported; else
/// it is the first fault. The text and the name are kept. It takes time linear in the text, but for
/// the look-up of imported names, of which there are at most 256.
pub fn transform(alloc: Global, base: ModName, text: Vec<u8>) -> Result<Transformed, AllocError>
    requires short { length text.items + 1 < 2 ^ 32 }
    ensures { IfOk result
        (λ t. t ≡ record { name = base; text = text.items; outcome = transformed parsing base text.items }) }
{
    let outcome = outcome_of(alloc, &base, &text)?;
    Ok(Transformed::new(base, text, outcome))
}

/// The outcome of a text.
fn outcome_of(alloc: Global, base: &ModName, text: &[u8]) -> Result<Outcome, AllocError>
    requires short { length text.now + 1 < 2 ^ 32 }
    ensures { IfOk result (λ outcome. outcome ≡ transformed parsing base.now text.now) }
{
    match parse(alloc, text) {
        Ok(tree) => outcome_of_tree(alloc, base, &tree),
        Err(fault) => match fault.text_fault() {
            Some(fault) => Ok(Outcome::Bad(fault)),
            None => Err(AllocError),
        },
    }
}

/// The outcome of what a text reads as. A fault of specifiers and imports has no place.
fn outcome_of_tree(alloc: Global, base: &ModName, tree: &Module) -> Result<Outcome, AllocError>
    ensures { IfOk result (λ outcome. outcome ≡ scan_outcome (analysed base.now (module_of tree.now))) }
{
    match analyse(alloc, base, tree) {
        Ok(analysis) => Ok(Outcome::Good(analysis)),
        Err(fault) => match word(fault) {
            Some(word) => Ok(Outcome::Bad(TextFault {
                line: 0,
                col: 0,
                word,
            })),
            None => Err(AllocError),
        },
    }
}

/// The word of a refusal, None where memory ran out.
fn word(fault: ScanFault) -> Option<FaultWord>
    ensures { result ≡ told_word fault }
{
    match fault {
        ScanFault::Spec(SpecFault::Bare) => Some(FaultWord::SpecifierBare),
        ScanFault::Spec(SpecFault::Climbs) => Some(FaultWord::SpecifierClimbs),
        ScanFault::Spec(SpecFault::Empty) => Some(FaultWord::SpecifierEmpty),
        ScanFault::Spec(SpecFault::TooLong) => Some(FaultWord::SpecifierTooLong),
        ScanFault::Spec(SpecFault::BadSegment) => Some(FaultWord::SpecifierBadSegment),
        ScanFault::TooManyImports => Some(FaultWord::TooManyImports),
        ScanFault::Spec(SpecFault::NoMemory) | ScanFault::NoMemory => None,
    }
}
