// What a live server makes of the files of its folder.
ghost use Rattle.std.specs.Prelude.{IfOk};
ghost use Rattle.std.specs.Option.{ForSome};
ghost use Rattle.live_site.specs.CoreTexts.{IsShort};

use hmr_types::{ModName, Text, Ver};
use live_answers::Answer;
use live_lines::ImportedName;
use std::alloc::{AllocError, Global};
use std::sync::Wait;

/// What a live server makes of the files of its folder: what its core is told of each, and what is answered
/// by HTTP. All threads share it by reference; it may wait for a lock.
pub trait Site {
    /// A file as it was read.
    type File: Drop;

    /// How many bytes are to be read behind a head before it is answered, as `live_answers::body_length`
    /// tells; None where no body is taken.
    fn body_length(&self, head: &[u8]) -> Option<usize>;

    /// The answer to a head, and to the bytes of its body.
    fn answer<R: Wait>(
        &self,
        rt: &R,
        alloc: Global,
        head: &[u8],
        body: &[u8],
    ) -> Result<Answer, AllocError>;

    /// Reads the text that the file of a module has by the edit of this number.
    fn read(
        &self,
        alloc: Global,
        name: &ModName,
        version: Ver,
        text: &[u8],
    ) -> Result<Self::File, AllocError>;

    /// What the core is told in place of the file's text, of at most 131,072 bytes; None where it would be
    /// longer.
    fn core_text(&self, alloc: Global, file: &Self::File) -> Result<Option<Vec<u8>>, AllocError>
        ensures short { IfOk result (λ told. ForSome told IsShort) };

    /// The core took the edit of this number: the file has the text that was read, or is gone.
    fn keep<R: Wait>(
        &self,
        rt: &R,
        name: &ModName,
        version: Ver,
        file: Option<Self::File>,
    ) -> Result<(), AllocError>;

    /// Each edit up to the one of this number has its result.
    fn settle<R: Wait>(&self, rt: &R, version: Ver);

    /// A line of the file's text, from 1, as people are shown it; None where that isn't known.
    fn line<R: Wait>(
        &self,
        rt: &R,
        alloc: Global,
        name: &ModName,
        line: u32,
    ) -> Result<Option<Text>, AllocError>;

    /// Which names the file of a module imports from which modules of the folder, as its text of this
    /// version has them; none where that text isn't known. It takes memory linear in what is answered.
    fn imported_names<R: Wait>(
        &self,
        rt: &R,
        alloc: Global,
        name: &ModName,
        version: Ver,
    ) -> Result<Vec<ImportedName>, AllocError>;
}
