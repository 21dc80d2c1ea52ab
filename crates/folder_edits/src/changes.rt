// The edits that bring the modules of a folder, or what changed in them.
ghost use Rattle.std.specs.Prelude.{◌≡◌, ◌≤◌, All, IfOk, true};
ghost use Rattle.hmr_types.specs.ModName.{is_name};
ghost use Rattle.hmr_types.specs.declared.limits.TheConstants.{MESSAGE_BYTES};
ghost use Rattle.folder_watch.specs.Edits.{AreEdits};
ghost use Rattle.folder_watch.specs.Listings.{AreShort, Rises};
ghost use Rattle.hub_editor.specs.Edits.{edits_in, length_of};

use folder_watch::{Listing, edits_between};
use hmr_types::ModName;
use std::alloc::{AllocError, Global};

/// The edits, in order of their names, that turn the modules of one listing into those of another. Each has
/// a name and a text that a message has room for.
pub(crate) fn changes_between(
    alloc: Global,
    old: &Listing,
    new: &Listing,
) -> Result<Vec<(ModName, Option<Vec<u8>>)>, AllocError>
    requires short { AreShort new.now }
    ensures are { IfOk result (λ edits. AreEdits old.now new.now (edits_in edits.items)) }
    ensures rising { IfOk result (λ edits. Rises (edits_in edits.items)) }
    ensures short { IfOk result (λ edits. All (λ e. length_of e ≤ MESSAGE_BYTES) (edits_in edits.items)) }
{
    let edits = edits_between(alloc, old, new)?;
    look_at_names(&edits);
    Ok(edits)
}

// Each name is one, and so has at most 255 bytes.
fn look_at_names(edits: &[(ModName, Option<Vec<u8>>)])
    ensures { All (λ e. is_name e.0 ≡ true) edits.now }
{
    for (name, _) in edits {
        let _ = name.as_bytes();
    }
}
