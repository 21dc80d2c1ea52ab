// What is at a path.

use crate::media::Media;

/// What is at a path.
#[derive(Debug, Drop)]
pub enum Found {
    /// A file with these bytes, whose media type is that of its path.
    File(Vec<u8>),
    /// A text of this media type.
    Text { media: Media, bytes: Vec<u8> },
    /// A folder.
    Folder,
    /// Nothing.
    Missing,
    /// A file that can't be read, or that has more than [`FILE_BYTES`](crate::FILE_BYTES) bytes.
    Unread,
}
