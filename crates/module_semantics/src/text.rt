// Module texts. `ReadsAs` says in one piece which text reads as which module; `parsing` computes
// the module, or the first fault of the text. The laws here say that these agree.
ghost use Rattle.module_tree.specs.Syntax.{ModuleTree};
ghost use Rattle.hmr_types.specs.declared.analysis.TextFault.{TextFault};
ghost use Rattle.module_semantics.specs.ModuleText.{ReadsAs, parsing};
ghost use Rattle.module_semantics.specs.TextFaults.{IsFault};
ghost use Rattle.std.specs.Prelude.{◌↔◌, Err, Ok, ◌≡◌, ℕ, List};

/// Parsing gives this module exactly where the text reads as it; so a text reads as one module at
/// most.
pub fn parsing_is_reading()
    ensures same { (text : List ℕ) (m : ModuleTree) → (parsing text ≡ Ok m) ↔ ReadsAs text m }
    ensures one { (text : List ℕ) (m n : ModuleTree) → ReadsAs text m → ReadsAs text n → m ≡ n }
{}

/// The fault of parsing is what is wrong with the text, and it stands first: with its bytes, then
/// with its tokens, then with its grammar or its depth, then with its names.
pub fn faults_stand_first()
    ensures { (text : List ℕ) (f : TextFault) → (parsing text ≡ Err f) → IsFault text f }
{}
