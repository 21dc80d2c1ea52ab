// What a browser is sent of a file.
ghost use Rattle.std.specs.Prelude.{None};

use crate::scanned::{PageScan, Scan, ScannedFile};
use browser_texts::{script_text, style_text};
use hmr_types::ModName;
use instance_urls::{Instances, PlanId};
use live_answers::{Found, Media};
use page_texts::{ClientTag, page_text};
use std::alloc::{AllocError, Global};

/// The instances of a page that took up no change: each is at its plain URL.
#[derive(Drop)]
pub(crate) struct PlainUrls {}

impl Instances for PlainUrls {
    ghost instance_of = { λ _ _. None };

    fn instance(&self, name: &ModName) -> Option<PlanId> {
        let _ = name;
        None
    }
}

/// What a browser is sent of a file that is linked to these instances; of a page its text. It takes time and
/// memory linear in the text and what a scan found in it, but for what the look-up of instances takes.
pub(crate) fn file_sent<I: Instances>(
    alloc: Global,
    name: &ModName,
    file: &ScannedFile,
    instances: &I,
) -> Result<Found, AllocError> {
    let text = &file.text;
    match &file.scan {
        Scan::Script(outline) => Ok(Found::Text {
            media: Media::JavaScript,
            bytes: script_text(alloc, instances, name, text, outline)?,
        }),
        Scan::Style(outline) => Ok(Found::Text {
            media: Media::Css,
            bytes: style_text(alloc, name, text, outline, instances)?,
        }),
        Scan::Data => Ok(Found::Text {
            media: Media::Json,
            bytes: Vec::from_slice(alloc, text)?,
        }),
        Scan::Page(_) | Scan::Refused => Ok(Found::File(Vec::from_slice(alloc, text)?)),
    }
}

/// What a browser is sent of a page: its text with the client's tag, and with the hooks of its inline
/// modules.
pub(crate) fn page_sent(
    alloc: Global,
    name: &ModName,
    text: &[u8],
    page: &PageScan,
    tag: ClientTag,
) -> Result<Found, AllocError> {
    Ok(Found::Text {
        media: Media::Html,
        bytes: page_text(alloc, tag, name, text, page.outline.head, &page.hooks)?,
    })
}
