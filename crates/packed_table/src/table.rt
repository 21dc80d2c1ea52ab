// A table as the number of its rows and their bytes.
ghost use Rattle.std.specs.Prelude.{◌≡◌, IfOk};

use crate::row::{pack_rows, unpack_rows};
use hmr_types::Table;
use std::alloc::{AllocError, Global};
use std::marker::Model;

/// A table, packed: contracts see it as the list of its pairs, as they see a [`Table`].
#[derive(Drop)]
pub struct PackedTable {
    count: usize,
    bytes: Vec<u8>,
}

impl Model for PackedTable {
    ghost use Rattle.std.specs.Prelude.{ℕ, List};
    ghost use Rattle.packed_table.specs.Packing.{IsPacked, rows_in};

    ghost Value = { List (List ℕ × ℕ) };

    ghost view = { λ p. rows_in p.count p.bytes.items };

    ghost invariant = { λ p. IsPacked p.count p.bytes.items };
}

impl PackedTable {
    /// The table, packed into one block of 9 bytes for each of its modules beside the bytes of their names.
    /// It fails where there is no memory for them, and takes time in proportion to them.
    pub fn pack(alloc: Global, table: &Table) -> Result<PackedTable, AllocError>
        ensures { IfOk result (λ packed. packed ≡ table.now) }
    {
        let rows = table.as_slice();
        let bytes = pack_rows(alloc, rows)?;
        Ok(PackedTable {
            count: rows.len(),
            bytes,
        })
    }

    /// The table that was packed. It fails where there is no memory for it, and takes time in proportion to
    /// its modules and the bytes of their names.
    pub fn unpack(&self, alloc: Global) -> Result<Table, AllocError>
        ensures { IfOk result (λ table. table ≡ self.now) }
    {
        let rows = unpack_rows(alloc, self.count, &self.bytes)?;
        Ok(Table::of(rows).unwrap())
    }
}

#[cfg(test)]
mod tests;
