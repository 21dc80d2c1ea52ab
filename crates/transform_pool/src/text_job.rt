// A text that is to be transformed.
ghost use Rattle.std.specs.Prelude.{◌≡◌, ◌+◌, ◌≤◌, IfOk, length};
ghost use Rattle.hmr_types.specs.declared.limits.TheConstants.{MESSAGE_BYTES};
ghost use Rattle.transform_pool.specs.Results.{result_of};

use hmr_types::{ModName, Ver};
use import_scan::transform;
use std::alloc::{AllocError, Global};
use std::marker::Model;
use transforms::Transformed;

/// The text of a module under the version of its edit. Name and text have together at most 16,777,216
/// bytes. Contracts see the three as a `Task`.
#[derive(Drop)]
pub struct TextJob {
    name: ModName,
    text: Vec<u8>,
    ver: Ver,
}

impl Model for TextJob {
    ghost use Rattle.std.specs.Prelude.{◌+◌, ◌≤◌, length};
    ghost use Rattle.hmr_types.specs.declared.limits.TheConstants.{MESSAGE_BYTES};
    ghost use Rattle.transform_pool.specs.Tasks.{Task};

    ghost Value = { Task };

    ghost view = { λ j. record { name = j.name; text = j.text.items; ver = j.ver } };

    ghost invariant = { λ j. length j.name + length j.text.items ≤ MESSAGE_BYTES };
}

impl TextJob {
    /// The job of a text of the module `name`.
    pub fn new(name: ModName, text: Vec<u8>, ver: Ver) -> TextJob
        requires short { length name + length text.items ≤ MESSAGE_BYTES }
        ensures { result ≡ record { name = name; text = text.items; ver = ver } }
    {
        TextJob { name, text, ver }
    }

    /// The name of the module.
    pub fn name(&self) -> &ModName
        ensures { result.now ≡ self.now.name }
    {
        &self.name
    }

    /// The bytes of the text.
    pub fn text(&self) -> &[u8]
        ensures { result.now ≡ self.now.text }
    {
        &self.text
    }

    /// The version of the edit.
    pub fn ver(&self) -> Ver
        ensures { result ≡ self.now.ver }
    {
        self.ver
    }

    /// The result of the job: its text transformed. It takes time linear in the text, but for the look-up
    /// of imported names; the name and the text go into the result.
    pub fn transformed(self, alloc: Global) -> Result<Transformed, AllocError>
        ensures result { IfOk result (λ done. done ≡ result_of self) }
        ensures short { IfOk result (λ done. length done.name + length done.text ≤ MESSAGE_BYTES) }
    {
        transform(alloc, self.name, self.text)
    }
}
