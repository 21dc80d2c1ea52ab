// Worked examples of the module language, computed by the checker from the texts.
ghost use Rattle.std.specs.Prelude.{◌≡◌, [], ◌∷◌, codes, true, false, pos};
ghost use Rattle.module_tree.specs.Syntax as tree;
ghost use Rattle.module_language.specs.ModuleLanguage.{module_language};
ghost use Rattle.module_language.specs.Examples.{m, x, importer, hears, keeper, keeps, astray, nameless};
ghost use Rattle.module_language.specs.Examples.{importer_slots, kept_five};

use hmr_types::{FaultWord, HandlerKind, Outcome, Slot, Value};

/// What analysis tells of a text, or the first fault of it.
pub fn texts_are_transformed()
    ensures importer { module_language.transformed m importer
        ≡ Outcome.Good (record {
          imports = x ∷ [];
          exports = codes "n" ∷ [];
          self_accepts = false;
          accepted = x ∷ [];
          declined = false;
        }) }
    ensures keeper { module_language.transformed m keeper
        ≡ Outcome.Good (record {
          imports = [];
          exports = codes "n" ∷ [];
          self_accepts = true;
          accepted = [];
          declined = false;
        }) }
    ensures astray { module_language.transformed m astray
        ≡ Outcome.Bad (record { line = 0; col = 0; word = FaultWord.SpecifierBare }) }
    ensures nameless { module_language.transformed m nameless
        ≡ Outcome.Bad (record { line = 1; col = 14; word = FaultWord.Unexpected }) }
{}

/// Each name of an import is bound to the module that the specifier means. Where it means none, and
/// where a text is no module, nothing is bound.
pub fn imports_are_bound()
    ensures importer { module_language.bindings m importer
        ≡ record { dependency = x; exported = codes "b"; local = codes "c" }
        ∷ record { dependency = x; exported = codes "a"; local = codes "a" } ∷ [] }
    ensures keeper { module_language.bindings m keeper ≡ [] }
    ensures astray { module_language.bindings m astray ≡ [] }
    ensures nameless { module_language.bindings m nameless ≡ [] }
{}

/// An evaluation reads its imports by their local names, and the bag; a dependency callback lists the
/// modules that its specifiers mean. A text that is no module leaves the bag as it was.
pub fn modules_are_evaluated()
    ensures importer { module_language.evaluated m importer importer_slots []
        ≡ record {
          fault = None;
          vars = (codes "n", Slot.Val (Value.Num (pos 7))) ∷ [];
          lines = [];
          registered = record { kind = HandlerKind.Dep; deps = x ∷ []; what = tree.code hears } ∷ [];
          bag = [];
        } }
    ensures keeper { module_language.evaluated m keeper [] kept_five
        ≡ record {
          fault = None;
          vars = (codes "n", Slot.Val (Value.Num (pos 5))) ∷ [];
          lines = [];
          registered = record { kind = HandlerKind.Dispose; deps = []; what = tree.code keeps } ∷ [];
          bag = kept_five;
        } }
    ensures nameless { module_language.evaluated m nameless [] kept_five
        ≡ record { fault = None; vars = []; lines = []; registered = []; bag = kept_five } }
{}

/// The callback of a dependency is given a module by its exports, or `undefined`; a disposer writes the
/// bag, and a closure of the embedding program leaves its number there.
#[tactic(auto, unfolding(module_semantics::specs::Entries::entry_at, module_semantics::specs::Entries::with_entry))]
pub fn handlers_are_run()
    ensures module { module_language.ran hears ((codes "n", Slot.Val (Value.Num (pos 7))) ∷ [])
        (Some ((codes "b", Slot.Val (Value.Num (pos 4))) ∷ []) ∷ []) []
        ≡ record {
          fault = None;
          lines = [];
          changes = (codes "n", Value.Num (pos 4)) ∷ [];
          invalidations = [];
          bag = [];
        } }
    ensures undefined { module_language.ran hears
        ((codes "n", Slot.Val (Value.Num (pos 7))) ∷ []) (None ∷ []) []
        ≡ record {
          fault = None;
          lines = [];
          changes = (codes "n", Value.Undef) ∷ [];
          invalidations = [];
          bag = [];
        } }
    ensures disposer { module_language.ran keeps
        ((codes "n", Slot.Val (Value.Num (pos 7))) ∷ []) [] kept_five
        ≡ record {
          fault = None;
          lines = [];
          changes = [];
          invalidations = [];
          bag = (codes "n", Value.Num (pos 7)) ∷ [];
        } }
    ensures closure { module_language.hosted (codes "L") 12 []
        ≡ record {
          fault = None;
          lines = codes "host L 12" ∷ [];
          changes = [];
          invalidations = [];
          bag = (codes "host", Value.Num (pos 12)) ∷ [];
        } }
{}
