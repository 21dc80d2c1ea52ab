// A script as a value: the roots of the page, and the text that has its commands.
ghost use Rattle.std.specs.Prelude.{◌≡◌, []};
ghost use Rattle.play_script.specs.Script.{commands, lines_from};

use crate::commands::Commands;
use hmr_types::{ModName, Sequence};
use std::marker::Model;

/// A page, and what happens to it. Contracts see the record of its `roots` and its commands, `lines`.
#[derive(Drop)]
pub struct Script<'a> {
    roots: Sequence<ModName>,
    text: &'a [u8],
}

impl<'a> Model for Script<'a> {
    ghost use Rattle.std.specs.Prelude.{[]};
    ghost use Rattle.play_script.specs.Script.{Contents, commands, lines_from};

    ghost Value = { Contents };

    ghost view = { λ s. record { roots = s.roots; lines = commands (lines_from [] s.text.now) } };
}

impl<'a> Script<'a> {
    /// The script of these roots whose commands are those of the text.
    pub(crate) fn new(roots: Sequence<ModName>, text: &'a [u8]) -> Script<'a>
        ensures roots { result.roots ≡ roots }
        ensures commands { result.lines ≡ commands (lines_from [] text.now) }
    {
        Script { roots, text }
    }

    /// The names of the page's roots, in order: different names, at most 16, and one at least where
    /// there is a command.
    pub fn roots(&self) -> &[ModName]
        ensures { result.now ≡ self.now.roots }
    {
        self.roots.as_slice()
    }

    /// The commands, from the first on. Each is read as it is asked for.
    pub fn commands(&self) -> Commands<'a>
        ensures { result ≡ self.now.lines }
    {
        Commands::of(self.text)
    }
}
