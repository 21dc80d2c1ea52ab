// The grammar of module texts. A derivation has one constructor for each production; the tokens
// spell it, and it says what the module is. `reading` says by a function, which looks one token
// ahead, what the tokens say or where they leave the grammar. The laws here say that these agree.
ghost use Rattle.std.specs.Prelude.{◌↔◌, ◌<◌, Ok, Err, ◌≡◌, ℕ, List};
ghost use Rattle.module_semantics.specs.ModuleTokens.{FirstUnexpected, Says, TooDeepAt};
ghost use Rattle.module_semantics.specs.Raw.{RawItem};
ghost use Rattle.module_semantics.specs.Readers.{too_deep, unexpected};
ghost use Rattle.module_semantics.specs.Reading.{reading};
ghost use Rattle.module_semantics.specs.Token.{LineToken};

/// Reading gives these items exactly where the tokens spell a derivation that says them and isn't
/// too deep; so tokens say one module at most.
pub fn reading_is_the_grammar()
    ensures same { (most : ℕ) (ts : List LineToken) (items : List RawItem) →
        (reading most ts ≡ Ok items) ↔ Says most ts items }
    ensures one { (most : ℕ) (ts : List LineToken) (x y : List RawItem) →
        Says most ts x → Says most ts y → x ≡ y }
{}

/// Where reading meets an unexpected token, the tokens before it begin a module, and no module goes
/// on with it; so there is one such place.
pub fn the_unexpected_stands_first()
    ensures first { (most : ℕ) (ts : List LineToken) (n : ℕ) →
        (reading most ts ≡ Err (unexpected n)) → FirstUnexpected ts n }
    ensures one { (ts : List LineToken) (n m : ℕ) → FirstUnexpected ts n → FirstUnexpected ts m → n ≡ m }
{}

/// Where reading meets a token that is too deep, the tokens up to it begin a module, but none that
/// isn't too deep; this place stands before the first unexpected token.
pub fn the_too_deep_stands_first()
    ensures deep { (most : ℕ) (ts : List LineToken) (n : ℕ) →
        (reading most ts ≡ Err (too_deep n)) → TooDeepAt most ts n }
    ensures first { (most : ℕ) (ts : List LineToken) (n m : ℕ) → TooDeepAt most ts m →
        FirstUnexpected ts n → n < m }
{}
