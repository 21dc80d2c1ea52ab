// Laws of answers: each clause holds of the definitions, for all bytes.
ghost use Rattle.std.specs.Prelude.{◌≡◌, ℕ, List};
ghost use Rattle.http_exchange.specs.Serving.{Answers, Bodies};

/// The answers to the heads of bytes are a function of the bytes and of what is served.
pub fn answers_are_unique()
    ensures { (bodies : Bodies) (bytes a b : List ℕ) (n m : ℕ) → Answers bodies bytes n a
        → Answers bodies bytes m b → (n ≡ m) × (a ≡ b) }
{}
