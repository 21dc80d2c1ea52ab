// Canonical texts. `canon` writes a module in one way: each statement on a line of its own, two
// spaces for each block, parentheses only where they are needed. `fits` is a test of a module as
// plain data: the rules on names hold, its nesting is at most the depth, and its names, numbers and
// texts can be written. The laws here say that the canonical text of a module that fits reads as
// it, and that no other module is ever read.
ghost use Rattle.module_tree.specs.Syntax.{ModuleTree};
ghost use Rattle.hmr_types.specs.declared.limits.TheConstants.{TOKENS};
ghost use Rattle.module_semantics.specs.Canon.{canon};
ghost use Rattle.module_semantics.specs.CanonItems.{canon_tokens};
ghost use Rattle.module_semantics.specs.Fitting.{fits};
ghost use Rattle.module_semantics.specs.ModuleText.{ReadsAs};
ghost use Rattle.std.specs.Prelude.{◌↔◌, ◌≡◌, ◌≤◌, ℕ, List, length, true};

/// The canonical text of a module reads as that module exactly where the module fits and the text
/// has no more tokens than a text may have; so different modules of this kind have different
/// canonical texts.
pub fn canon_reads_back()
    ensures exactly { (m : ModuleTree) →
        ((fits m ≡ true) × (length (canon_tokens m) ≤ TOKENS)) ↔ ReadsAs (canon m) m }
    ensures apart { (m n : ModuleTree) → (fits m ≡ true) →
        (fits n ≡ true) → (length (canon_tokens m) ≤ TOKENS) → (length (canon_tokens n) ≤ TOKENS) →
        (canon m ≡ canon n) → m ≡ n }
{}

/// Only modules that fit are read; so a module that some text reads as is read again from its
/// canonical text, where that has no more tokens than a text may have.
pub fn only_what_fits_is_read()
    ensures fits { (text : List ℕ) (m : ModuleTree) → ReadsAs text m → fits m ≡ true }
    ensures again { (text : List ℕ) (m : ModuleTree) → ReadsAs text m →
        (length (canon_tokens m) ≤ TOKENS) → ReadsAs (canon m) m }
{}
