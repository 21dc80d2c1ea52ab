// Worked examples of analysis: what the definitions give, computed.
ghost use Rattle.std.specs.Prelude.{◌≡◌, ℕ, List, [], ◌∷◌, codes, length, true, false};
ghost use Rattle.module_tree.specs.Syntax as tree;
ghost use Rattle.module_semantics.specs.Analysis.{analysed, imports_of, transformed};
ghost use Rattle.module_semantics.specs.Examples.{accept, export_let, import, imports, nothing};

use crate::ScanFault;
use hmr_types::{FaultWord, Outcome, SpecFault};

/// Imports and accepted names come once each, in the order of their first occurrence; a name that
/// isn't imported is not among the accepted ones.
#[tactic(auto, unfolding(hmr_types::specs::ModName::is_segment_byte))]
pub fn names_come_once_in_order()
    ensures { analysed (codes "/x/m.js")
        (accept (codes "./b.js") ∷ import (codes "./a.js") ∷ export_let (codes "n") (tree.num 1)
        ∷ import (codes "../x/b.js") ∷ tree.declare false false (codes "o") (tree.num 1)
        ∷ tree.deps true (codes "./c.js" ∷ codes "./a.js" ∷ codes "/x/b.js" ∷ []) (Some nothing)
        ∷ import (codes "/x/a.js") ∷ tree.own None ∷ export_let (codes "k") (tree.num 2) ∷ [])
        ≡ Ok (record {
          imports = codes "/x/a.js" ∷ codes "/x/b.js" ∷ [];
          exports = codes "n" ∷ codes "k" ∷ [];
          self_accepts = true;
          accepted = codes "/x/b.js" ∷ codes "/x/a.js" ∷ [];
          declined = false;
        }) }
{}

/// The first specifier in the text that means no module, of imports and accepts, is the fault.
#[tactic(auto, unfolding(hmr_types::specs::ModName::is_segment_byte))]
pub fn first_specifier_is_the_fault()
    ensures accept_first { analysed (codes "/m.js")
        (import (codes "/a.js") ∷ accept (codes "../b.js") ∷ import (codes "react") ∷ [])
        ≡ Err (ScanFault.Spec SpecFault.Climbs) }
    ensures import_first { analysed (codes "/m.js") (import (codes "react") ∷ accept (codes "../b.js") ∷ [])
        ≡ Err (ScanFault.Spec SpecFault.Bare) }
    ensures no_place { transformed (λ text. Ok (import text ∷ [])) (codes "/m.js") (codes "./a?.js")
        ≡ Outcome.Bad (record { line = 0; col = 0; word = FaultWord.SpecifierBadSegment }) }
{}

/// 256 different imports are taken, and 257 are not.
#[tactic(auto, unfolding(hmr_types::specs::ModName::is_segment_byte))]
pub fn imports_are_few()
    ensures most { length (imports_of (codes "/m.js") (imports 256)) ≡ 256 }
    ensures too_many { analysed (codes "/m.js") (imports 257) ≡ Err ScanFault.TooManyImports }
{}
