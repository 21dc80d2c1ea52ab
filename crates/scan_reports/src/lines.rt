// Lines of places that rise.

/// The line of a place of a text, counted on from the place before.
#[derive(Clone, Copy)]
pub(crate) struct LineCount {
    at: usize,
    line: u64,
}

impl LineCount {
    /// The start of a text whose first line has this number.
    pub fn new(first: u64) -> LineCount {
        LineCount { at: 0, line: first }
    }

    /// The line of a place, which is not before the last; of one before it that line. It takes time in the
    /// bytes between them.
    pub fn line_at(&mut self, text: &[u8], place: u32) -> u64 {
        let place = (place as usize).min(text.len());
        if let Some(between) = text.get(self.at..place) {
            for byte in between {
                if *byte == b'\n' {
                    self.line = self.line.saturating_add(1);
                }
            }
            self.at = place;
        }
        self.line
    }
}
