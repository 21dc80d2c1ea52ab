// The text of the page that is made where a folder has none.
ghost use Rattle.std.specs.Prelude.{IfOk};
ghost use Rattle.live_folder.specs.Texts.{IsShort};

use hmr_types::ModName;
use instance_urls::write_url;
use std::alloc::{AllocError, Global};

/// The most bytes of a page.
const PAGE_BYTES: usize = 67_108_864;

const BEFORE: &[u8] = b"<!doctype html>
<html lang=\"en\">
<head>
<meta charset=\"utf-8\">
<title>hmr dev</title>
</head>
<body>
";

const BEHIND: &[u8] = b"</body>
</html>
";

/// A page that loads these modules, one after another; where there are none, one that says that the folder has
/// no page.
pub(crate) fn made_text(alloc: Global, roots: &[ModName]) -> Result<Vec<u8>, AllocError>
    ensures short { IfOk result IsShort }
{
    let mut text = Vec::from_slice(alloc, BEFORE)?;
    if roots.is_empty() {
        text.extend_from_slice(b"<p>This folder has no index.html.</p>\n")?;
    }
    for root in roots {
        text.extend_from_slice(b"<script type=\"module\" src=\"")?;
        write_url(alloc, &mut text, root, None)?;
        text.extend_from_slice(b"\"></script>\n")?;
    }
    text.extend_from_slice(BEHIND)?;
    // Names are short, and there are few: it is far shorter.
    if text.len() > PAGE_BYTES {
        return Err(AllocError);
    }
    Ok(text)
}
