// A law of scripts: what is written of a script by its canonical spelling is read as that script.
ghost use Rattle.std.specs.Prelude.{◌≡◌, Ok};
ghost use Rattle.play_script.specs.Script.{Contents, script_of};
ghost use Rattle.play_script.specs.Spelling.{HasSpelling, spelling};

/// The canonical spelling of a script says that script: each root and each command on a line of its own,
/// its words one space apart, its numbers in decimal, and each line of an edit's text behind `|`.
pub fn spelling_is_read()
    ensures { (script : Contents) → HasSpelling script → script_of (spelling script) ≡ Ok script }
{}
