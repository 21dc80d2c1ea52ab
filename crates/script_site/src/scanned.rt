// A file's text, and what a scan found in it.
use css_scan::StyleOutline;
use es_scan::Outline;
use html_scan::PageOutline;

/// A file's text, and what a scan found in it.
#[derive(Drop)]
pub(crate) struct ScannedFile {
    pub text: Vec<u8>,
    pub scan: Scan,
}

/// What a scan found in a file.
#[derive(Drop)]
pub(crate) enum Scan {
    /// JavaScript.
    Script(Outline),
    /// A stylesheet.
    Style(StyleOutline),
    /// Data, in which nothing is looked for.
    Data,
    /// A page.
    Page(PageScan),
    /// The core refuses what it is told of the file.
    Refused,
}

/// What a scan found in a page.
#[derive(Drop)]
pub(crate) struct PageScan {
    pub outline: PageOutline,
    /// The places of the first statements of those inline modules that use `import.meta` or call
    /// `import`, as counts of bytes from the start of the page.
    pub hooks: Vec<u32>,
}

impl ScannedFile {
    /// Whether the core takes what it is told of the file.
    pub fn is_good(&self) -> bool {
        !matches!(self.scan, Scan::Refused)
    }

    /// Whether the file is a page.
    pub fn is_page(&self) -> bool {
        matches!(self.scan, Scan::Page(_))
    }
}
