// The versions that a client tells of its page, looked up by name.
ghost use Rattle.std.specs.Prelude.{◌≡◌, IfOk};
ghost use Rattle.core_model.specs.Names.{Name, at};
ghost use Rattle.core_model.specs.Requests.{version_at};

use crate::firsts::keep_first;
use hmr_types::{ModName, Ver};
use std::alloc::{AllocError, Global};
use std::collections::BTreeMap;
use std::marker::Model;

/// The versions told, by name. Contracts see the names with their versions, and ask for that of one name.
#[derive(Drop)]
pub(crate) struct Told {
    versions: BTreeMap<ModName, Ver>,
}

impl Model for Told {
    ghost use Rattle.std.specs.Prelude.{List, ℕ};
    ghost use Rattle.core_model.specs.Names.{Name};

    ghost Value = { List (Name × ℕ) };

    ghost view = { λ t. t.versions.entries };
}

impl Told {
    /// The first version of each name of these rows.
    pub fn of(alloc: Global, rows: &[(ModName, Ver)]) -> Result<Told, AllocError>
        ensures { (n : Name) → IfOk result (λ told. at told n ≡ at rows.now n) }
    {
        let mut versions = BTreeMap::new(alloc);
        for row in rows {
            keep_first(&mut versions, &row.0, row.1)?;
        }
        Ok(Told { versions })
    }

    /// The version that is told of a name, 0 for none. It takes time in proportion to the logarithm of
    /// the number of names.
    pub fn version(&self, name: &ModName) -> Ver
        ensures { result ≡ version_at self.now name.now }
    {
        match self.versions.get(name) {
            Some(version) => *version,
            None => 0,
        }
    }
}
