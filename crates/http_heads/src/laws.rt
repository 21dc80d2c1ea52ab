// Laws of heads: each clause holds of the definitions, for all bytes.
ghost use Rattle.std.specs.Prelude.{◌≡◌, ℕ, List};
ghost use Rattle.http_heads.specs.Asks.{Ask, Asks};
ghost use Rattle.http_heads.specs.Cutting.{Cuts};

use crate::Cut;

/// What bytes ask, and where their first head ends, are functions of the bytes.
pub fn asks_are_unique()
    ensures asks { (bytes : List ℕ) (a b : Ask) → Asks bytes a → Asks bytes b → a ≡ b }
    ensures cuts { (bytes : List ℕ) (a b : Cut) → Cuts bytes a → Cuts bytes b → a ≡ b }
{}
