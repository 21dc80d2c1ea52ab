// Media types of texts.
ghost use Rattle.std.specs.Prelude.{◌≡◌};
ghost use Rattle.live_answers.specs.Media.{media_text};

/// What a text of a page is.
#[derive(Clone, Copy, Debug, PartialEq, Eq)]
pub enum Media {
    /// A page.
    Html,
    /// A script or a module.
    JavaScript,
    /// A stylesheet.
    Css,
    /// Data.
    Json,
}

impl Media {
    /// The media type, with the encoding of the text: UTF-8.
    pub fn text(self) -> &'static str
        ensures { result.now ≡ media_text self }
    {
        match self {
            Media::Html => "text/html; charset=utf-8",
            Media::JavaScript => "text/javascript; charset=utf-8",
            Media::Css => "text/css; charset=utf-8",
            Media::Json => "application/json; charset=utf-8",
        }
    }
}
