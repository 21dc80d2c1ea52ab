// Which file is at which path.
ghost use Rattle.std.specs.Prelude.{◌≡◌, is_some};
ghost use Rattle.live_page.specs.Files.{is_file};

use crate::script;

/// The bytes of the client's file at this path, which is `/@hmr/client.js`, or None where there is none. A page
/// loads it by a classic script, first in its head.
pub fn file(path: &str) -> Option<&'static [u8]>
    ensures { is_some result ≡ is_file path.now }
{
    match text(path) {
        Some(text) => Some(text.as_bytes()),
        None => None,
    }
}

fn text(path: &str) -> Option<&'static str>
    ensures { is_some result ≡ is_file path.now }
{
    if path == "/@hmr/client.js" {
        Some(script::text())
    } else {
        None
    }
}
