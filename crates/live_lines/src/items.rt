// What stands in the lists of a line: names, modules with versions, stale bindings.
ghost use Rattle.std.specs.Prelude.{◌≡◌, ◌++◌, OnOk, ℕ, List, codes};
ghost use Rattle.hmr_types.specs.ModName.{is_text};
ghost use Rattle.live_lines.specs.PageLines.{itself, name_text, of_text, stale_text, still_text, versioned};

use crate::StaleBinding;
use crate::pieces::{put, put_both, put_counted, put_number_and, put_shown};
use hmr_types::{ModName, Ver};
use std::alloc::AllocError;

/// What stands in a list of a line.
pub(crate) trait Item {
    ghost text: { Self → List ℕ };

    /// Puts its text behind others.
    fn put_item(&self, out: &mut Vec<u8>) -> Result<(), AllocError>
        ensures { OnOk result (out.new.items ≡ out.old.items ++ text self.now) };
}

impl Item for ModName {
    ghost text = { itself };

    fn put_item(&self, out: &mut Vec<u8>) -> Result<(), AllocError> {
        put(out, self.as_str())
    }
}

impl Item for (ModName, Ver) {
    ghost text = { versioned };

    fn put_item(&self, out: &mut Vec<u8>) -> Result<(), AllocError> {
        put(out, self.0.as_str())?;
        put_counted(out, " v", self.1, "")
    }
}

impl Item for StaleBinding {
    ghost text = { stale_text };

    fn put_item(&self, out: &mut Vec<u8>) -> Result<(), AllocError> {
        put_still(out, self)?;
        put_of(out, self)
    }
}

// Puts who still has which name.
fn put_still(out: &mut Vec<u8>, binding: &StaleBinding) -> Result<(), AllocError>
    ensures { OnOk result (out.new.items ≡ out.old.items ++ still_text binding.now) }
{
    put_both(out, binding.importer.as_str(), " still has ")?;
    put_name(out, binding.name.as_str())
}

// Puts a name, which may be any text, where it isn't all of its module.
fn put_name(out: &mut Vec<u8>, name: &str) -> Result<(), AllocError>
    ensures { OnOk result (out.new.items ≡ out.old.items ++ name_text name.now) }
{
    if is_all(name) {
        return Ok(());
    }
    put_shown(out, name)?;
    put(out, " of ")
}

// Whether a name is all of its module.
fn is_all(name: &str) -> bool
    ensures { result ≡ is_text name.now (codes "*") }
{
    name == "*"
}

// Puts which version of which module it has, and which is the live one.
fn put_of(out: &mut Vec<u8>, binding: &StaleBinding) -> Result<(), AllocError>
    ensures { OnOk result (out.new.items ≡ out.old.items ++ of_text binding.now) }
{
    put_both(out, binding.imported.as_str(), " v")?;
    put_number_and(out, binding.linked, " (now v")?;
    put_number_and(out, binding.live, ")")
}
