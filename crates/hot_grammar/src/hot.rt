// What is said of `import.meta.hot`.
ghost use Rattle.std.specs.Prelude.{◌≡◌};
ghost use Rattle.hot_grammar.specs.Parts.{hot_front};
ghost use Rattle.hot_grammar.specs.Reads.{Gives, past};

use crate::GrammarFault;
use crate::tokens::Tokens;
use token_kinds::Kind;

/// Takes what follows `import` in `import.meta.hot.`
pub(crate) fn pass_hot(tokens: &mut Tokens<'_>) -> Result<(), GrammarFault>
    ensures { Gives (λ _. past tokens.new) result (hot_front tokens.old) }
{
    tokens.mark(Kind::Dot)?;
    tokens.mark(Kind::Meta)?;
    tokens.mark(Kind::Dot)?;
    tokens.mark(Kind::Hot)?;
    tokens.mark(Kind::Dot)
}
