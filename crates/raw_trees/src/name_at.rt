// Names where they stand.
use hmr_types::Name;

/// A name where it stands.
#[derive(Debug, Drop)]
pub struct NameAt {
    /// Its characters.
    pub name: Name,
    /// The place of its first byte in the text, from 0.
    pub at: u32,
}
