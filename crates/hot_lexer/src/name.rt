// Names: a letter, `_` or `$`, and then letters, digits, `_` and `$`.
ghost use Rattle.std.specs.Prelude.{◌≡◌, ◌<◌, ◌^◌, ◌∷◌, drop, true, length, take};
ghost use Rattle.module_semantics.specs.Bytes.{span, is_name_start, is_name_byte};

use crate::run::name_run;

/// The name that begins with `first`, at a place of the text; `rest` follows that byte.
pub(crate) fn read_name<'a>(text: &'a str, at: usize, first: u8, rest: &[u8]) -> &'a str
    requires stands { drop at text.now ≡ first ∷ rest.now }
    requires start { is_name_start first ≡ true }
    requires room { length text.now < 2 ^ 32 }
    ensures { result.now ≡ first ∷ take (span is_name_byte rest.now) rest.now }
{
    let more = name_run(rest);
    &text[at..at + more + 1]
}
