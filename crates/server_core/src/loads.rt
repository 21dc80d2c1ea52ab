// What the core's own page, and the page of a client, would load anew: the load itself is of `fresh_loads`.
ghost use Rattle.std.specs.Prelude.{◌≡◌, IfOk, IsOk, List, None};
ghost use Rattle.std.specs.Option.{option_map};
ghost use Rattle.core_model.specs.Core as model;
ghost use Rattle.core_model.specs.Core.{client_at, core_after};
ghost use Rattle.core_model.specs.FreshLoad.{fresh_load};
ghost use Rattle.import_links.specs.Links.{links};
ghost use Rattle.server_core.specs.Kept.{StandsFor};
ghost use Rattle.fresh_loads.specs.Fresh.{load_of};
ghost use Rattle.server_core.specs.Loads.{load_at};

use crate::page_core::Core;
use fresh_loads::{Fresh, fresh_load};
use hmr_types::ClientId;
use std::alloc::{AllocError, Global};

/// What a page with the server's roots would load anew. It looks at each reached module once, and reads the
/// text of each that is served.
pub fn fresh(alloc: Global, core: &Core) -> Result<Fresh, AllocError>
    ensures load { IfOk result
        (λ fresh. load_of fresh ≡ fresh_load links core.now.sources.served core.now.roots) }
    ensures stands { (past : List model.Event) → StandsFor past core.now
        → IfOk result
        (λ fresh. load_of fresh
        ≡ fresh_load links (core_after core.now.roots past).sources.served core.now.roots) }
{
    fresh_load(alloc, core.sources(), core.roots())
}

/// What a connected client's page would load anew, from its own roots. It looks at each reached module
/// once, and reads the text of each that is served.
pub fn fresh_of(alloc: Global, core: &Core, client: ClientId) -> Result<Option<Fresh>, AllocError>
    ensures stands { (past : List model.Event) → StandsFor past core.now
        → IfOk result
        (λ fresh. option_map load_of fresh ≡ load_at (core_after core.now.roots past) client) }
    ensures unknown { client_at core.now.clients client ≡ None → IsOk result }
{
    let Some(roots) = core.roots_of(client) else {
        return Ok(None);
    };
    let fresh = fresh_load(alloc, core.sources(), roots)?;
    Ok(Some(fresh))
}
