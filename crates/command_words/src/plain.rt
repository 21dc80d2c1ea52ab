// Laws of the command line: what its words mean where nothing but them stands there.
ghost use Rattle.std.specs.Prelude.{◌≡◌, ℕ, List, [], ◌∷◌, None, codes, true};
ghost use Rattle.hmr_types.specs.ModName.{is_name};
ghost use Rattle.command_words.specs.Words.{IsCommand, command_of};
ghost use Rattle.command_words.specs.declared.command.Command.TheVariants.{Play, Check};

/// `play` alone is that command; `check` is one with the name of a module behind it; and no words are
/// none, nor is `check` alone.
pub fn plain_words()
    ensures play { IsCommand (codes "play" ∷ []) Play }
    ensures check { (name : List ℕ) → is_name name ≡ true
        → IsCommand (codes "check" ∷ name ∷ []) (Check name) }
    ensures nothing { command_of [] ≡ None }
    ensures alone { command_of (codes "check" ∷ []) ≡ None }
{}
