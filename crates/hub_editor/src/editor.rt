// The editor, as a type.
use crate::work::Work;

/// Who makes the later edits of a hub. It keeps each with a copy of its text, and with what was answered.
#[derive(Drop)]
pub struct Editor {
    pub(crate) works: Vec<Work>,
}
