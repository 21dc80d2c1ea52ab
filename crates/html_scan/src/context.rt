// What is open around a token, as far as it matters to a scan: templates, and foreign content.

use crate::elements::Element;

/// What foreign content is open.
#[derive(Clone, Copy, PartialEq)]
enum Foreign {
    None,
    Svg,
    Math,
}

/// What is open around a token.
#[derive(Drop)]
pub(crate) struct Context {
    /// How many templates.
    templates: u32,
    foreign: Foreign,
    /// How many elements of the foreign content's name.
    depth: u32,
}

impl Context {
    /// Nothing is open.
    pub fn new() -> Context {
        Context {
            templates: 0,
            foreign: Foreign::None,
            depth: 0,
        }
    }

    /// Whether foreign content is open.
    pub fn is_foreign(&self) -> bool {
        self.foreign != Foreign::None
    }

    /// Whether a browser runs what stands here: it doesn't in a template.
    pub fn is_live(&self) -> bool {
        self.templates == 0
    }

    /// Notes a start tag, and tells whether its element is one of HTML.
    pub fn start(&mut self, element: Element, is_self_closing: bool) -> bool {
        if self.foreign != Foreign::None && !self.breaks_out(element) {
            if !is_self_closing && self.foreign == foreign_of(element) {
                self.depth = self.depth.saturating_add(1);
            }
            return false;
        }
        let foreign = foreign_of(element);
        if foreign != Foreign::None {
            if !is_self_closing {
                self.foreign = foreign;
                self.depth = 1;
            }
            return false;
        }
        if element == Element::Template {
            self.templates = self.templates.saturating_add(1);
        }
        true
    }

    /// Notes an end tag.
    pub fn end(&mut self, element: Element) {
        if self.foreign == Foreign::None {
            if element == Element::Template {
                self.templates = self.templates.saturating_sub(1);
            }
        } else if !self.breaks_out(element) && self.foreign == foreign_of(element) {
            self.depth = self.depth.saturating_sub(1);
            if self.depth == 0 {
                self.foreign = Foreign::None;
            }
        }
    }

    /// Ends foreign content where a tag of this element does, and tells whether it does.
    fn breaks_out(&mut self, element: Element) -> bool {
        let breaks_out = element == Element::Breakout || element == Element::Head;
        if breaks_out {
            self.foreign = Foreign::None;
            self.depth = 0;
        }
        breaks_out
    }
}

/// The foreign content that an element begins.
fn foreign_of(element: Element) -> Foreign {
    match element {
        Element::Svg => Foreign::Svg,
        Element::Math => Foreign::Math,
        _ => Foreign::None,
    }
}
