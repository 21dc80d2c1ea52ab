// The options of `hmr dev`.
ghost use Rattle.std.specs.Prelude.{◌≡◌};
ghost use Rattle.live_words.specs.Options.{option_text, takes_value};

/// An option.
#[derive(Clone, Copy, Debug, PartialEq, Eq)]
pub enum DevOption {
    Port,
    StrictPort,
    Workers,
    Json,
    Record,
    Help,
}

impl DevOption {
    /// As it is written.
    pub fn as_str(self) -> &'static str
        ensures { result.now ≡ option_text self }
    {
        match self {
            DevOption::Port => "--port",
            DevOption::StrictPort => "--strict-port",
            DevOption::Workers => "--workers",
            DevOption::Json => "--json",
            DevOption::Record => "--record",
            DevOption::Help => "--help",
        }
    }

    /// Whether a value stands behind it.
    pub fn takes_value(self) -> bool
        ensures { result ≡ takes_value self }
    {
        matches!(
            self,
            DevOption::Port | DevOption::Workers | DevOption::Record
        )
    }
}
