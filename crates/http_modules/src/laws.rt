// The law on a body: it reads as the rewritten module.
ghost use Rattle.std.specs.Prelude.{◌≡◌, ◌≤◌, ℕ, List, length, true};
ghost use Rattle.core_model.specs.Sources.{Sources};
ghost use Rattle.hmr_types.specs.ModName.{is_name};
ghost use Rattle.hmr_types.specs.declared.limits.TheConstants.{TOKENS};
ghost use Rattle.module_tree.specs.Syntax.{ModuleTree};
ghost use Rattle.module_semantics.specs.Canon.{canon};
ghost use Rattle.module_semantics.specs.CanonItems.{canon_tokens};
ghost use Rattle.module_semantics.specs.ModuleText.{ReadsAs};
ghost use Rattle.http_modules.specs.Rewriting.{HasVersions, rewrite};

/// The canonical text of the rewritten module of a text reads as that module, where it has no more tokens than
/// a text may have. The versions of a version map are such, since each is below 2^53.
pub fn rewritten_reads_back()
    ensures { (base text : List ℕ) (m : ModuleTree) (map : Sources) → is_name base ≡ true → HasVersions map
        → ReadsAs text m → (length (canon_tokens (rewrite base m map)) ≤ TOKENS)
        → ReadsAs (canon (rewrite base m map)) (rewrite base m map) }
{}
