// The line for words that are no command.
ghost use Rattle.std.specs.Prelude.{◌≡◌};
ghost use Rattle.command_words.specs.Words.{usage_line};

/// The line that the program writes where its words are no command, with its LF.
pub fn usage() -> &'static str
    ensures { result.now ≡ usage_line }
{
    "usage: hmr play | check NAME | make N SEED | serve FOLDER ROOT.. | join PORT [ROOT..] | page FOLDER \
     | record | audit\n"
}
