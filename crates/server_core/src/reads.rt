// What is read of the core: sources by name, and clients by number.
ghost use Rattle.std.specs.Prelude.{◌≡◌, IfOk, IsOk, List, None};
ghost use Rattle.std.specs.Option.{option_map};
ghost use Rattle.core_model.specs.Core as model;
ghost use Rattle.core_model.specs.Core.{client_at, core_after};
ghost use Rattle.core_model.specs.Names.{at};
ghost use Rattle.client_records.specs.Record.{Kept};
ghost use Rattle.version_map.specs.Standing.{outstanding_in};
ghost use Rattle.server_core.specs.Kept.{StandsFor};
ghost use Rattle.server_core.specs.Reading.{is_resting, page_of, roots_of};

use crate::clients::record_of;
use crate::page_core::Core;
use hmr_types::{ClientId, ModName, Table};
use std::alloc::{AllocError, Global};
use version_map::VersionMap;

impl Core {
    /// The roots of the server's page.
    pub fn roots(&self) -> &[ModName]
        ensures { result.now ≡ self.now.roots }
    {
        self.roots.as_slice()
    }

    /// The sources of all modules, and what is served of them.
    pub fn sources(&self) -> &VersionMap
        ensures { result.now ≡ self.now.sources }
    {
        &self.versions
    }

    /// Whether the name has a source for which no result came yet.
    pub fn outstanding(&self, name: &ModName) -> bool
        ensures { (past : List model.Event) → StandsFor past self.now
            → result ≡ outstanding_in (at (core_after self.now.roots past).sources.current name.now) }
    {
        self.versions.outstanding(name)
    }

    /// Whether the client is connected and nothing is to be done for it: its page is loaded, no plan is
    /// under way, and nothing is changed, dropped, forced or waiting as a notice.
    pub fn at_rest(&self, client: ClientId) -> bool
        ensures { (past : List model.Event) → StandsFor past self.now
            → result ≡ is_resting (core_after self.now.roots past) client }
    {
        let Some(known) = record_of(&self.clients, client) else {
            return false;
        };
        known.at_rest()
    }

    /// The roots of a connected client's page.
    pub fn roots_of(&self, client: ClientId) -> Option<&[ModName]>
        ensures kept { option_map (λ names. names.now) result
            ≡ option_map (λ (kept : Kept). kept.roots) (client_at self.now.clients client) }
        ensures stands { (past : List model.Event) → StandsFor past self.now
            → option_map (λ names. names.now) result ≡ roots_of (core_after self.now.roots past) client }
    {
        let Some(known) = record_of(&self.clients, client) else {
            return None;
        };
        Some(known.roots())
    }

    /// The modules of a connected client's page with their versions, as the server has them.
    pub fn table(&self, alloc: Global, client: ClientId) -> Result<Option<Table>, AllocError>
        ensures stands { (past : List model.Event) → StandsFor past self.now
            → IfOk result (λ table. table ≡ page_of (core_after self.now.roots past) client) }
        ensures unknown { client_at self.now.clients client ≡ None → IsOk result }
    {
        let Some(known) = record_of(&self.clients, client) else {
            return Ok(None);
        };
        let table = known.table(alloc)?;
        Ok(Some(table))
    }
}
