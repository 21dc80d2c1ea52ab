// Laws of analysis: each clause holds of the definitions, for every module and name.
ghost use Rattle.std.specs.Prelude.{◌≡◌, ◌≢◌, ℕ, List};
ghost use Rattle.hmr_types.specs.Specifier.{resolve};
ghost use Rattle.module_tree.specs.Syntax.{ModuleTree};
ghost use Rattle.hmr_types.specs.declared.analysis.Analysis.{Analysis};
ghost use Rattle.module_semantics.specs.Analysis.{analysed, IsWellMade};

use crate::ScanFault;
use hmr_types::SpecFault;

/// Imports are different and at most 256; accepted names are different and imported.
pub fn analyses_are_well_made()
    ensures { (base : List ℕ) (m : ModuleTree) (a : Analysis) → analysed base m ≡ Ok a → IsWellMade a }
{}

/// The definitions never answer that memory ran out.
pub fn memory_is_never_meant()
    ensures specifiers { (base spec : List ℕ) → resolve base spec ≢ Err SpecFault.NoMemory }
    ensures specifier_faults { (base : List ℕ) (m : ModuleTree) →
        analysed base m ≢ Err (ScanFault.Spec SpecFault.NoMemory) }
    ensures scan_faults { (base : List ℕ) (m : ModuleTree) → analysed base m ≢ Err ScanFault.NoMemory }
{}
