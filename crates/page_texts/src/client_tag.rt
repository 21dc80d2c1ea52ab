// The tag by which a page loads the client.
ghost use Rattle.std.specs.Prelude.{◌≡◌, ◌++◌, OnOk, decimal};
ghost use Rattle.page_texts.specs.Pages.{attribute, tag_text};

use hmr_types::ModName;
use std::alloc::AllocError;

/// What the client is told of the page that it is on.
#[derive(Clone, Copy, Debug, PartialEq, Eq)]
pub struct ClientTag {
    /// The number of the page, another at each GET.
    pub page: u64,
    /// The run of the server, by which a page tells that it is of another one.
    pub run: u64,
    /// The largest number up to which every edit has its result.
    pub count: u64,
}

/// Puts the client's tag, of the page `root`. It is on one line, and takes time and memory linear in the name.
pub fn write_tag(out: &mut Vec<u8>, tag: ClientTag, root: &ModName) -> Result<(), AllocError>
    ensures { OnOk result (out.new.items ≡ out.old.items ++ tag_text tag root.now) }
{
    out.extend_from_slice(b"<script src=\"/@hmr/client.js\"")?;
    put_number(out, b" data-page=\"", tag.page)?;
    put_attribute(out, b" data-root=\"", root.as_bytes())?;
    put_number(out, b" data-run=\"", tag.run)?;
    put_number(out, b" data-count=\"", tag.count)?;
    out.extend_from_slice(b"></script>")?;
    Ok(())
}

fn put_number(out: &mut Vec<u8>, start: &[u8], number: u64) -> Result<(), AllocError>
    ensures { OnOk result (out.new.items ≡ out.old.items ++ attribute start.now (decimal number)) }
{
    let mut buffer = itoa::Buffer::new();
    put_attribute(out, start, buffer.format(number).as_bytes())
}

#[tactic(auto, unfolding(crate::specs::Pages::attribute))]
fn put_attribute(out: &mut Vec<u8>, start: &[u8], value: &[u8]) -> Result<(), AllocError>
    ensures { OnOk result (out.new.items ≡ out.old.items ++ attribute start.now value.now) }
{
    out.extend_from_slice(start)?;
    out.extend_from_slice(value)?;
    out.push(b'"')?;
    Ok(())
}
