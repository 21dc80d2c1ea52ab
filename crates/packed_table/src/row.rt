// Rows as bytes: of each its version, the length of its name, and the name.
ghost use Rattle.std.specs.Prelude.{◌≡◌, ◌+◌, ◌-◌, ◌^◌, ◌++◌, All, IfOk, OnOk, length, min, sum_by};
ghost use Rattle.std.specs.Prelude.{◌≤◌, drop, true};
ghost use Rattle.std.specs.List.{flat_map};
ghost use Rattle.hmr_types.specs.ModName.{is_name};
ghost use Rattle.packed_table.specs.Packing.{AreRows, CanPack, IsRow, first_row, row_bytes};
ghost use Rattle.packed_table.specs.Packing.{row_len, rows_in};

use hmr_types::{ModName, NameFault, Ver};
use std::alloc::{AllocError, Global};

// The bytes of a version.
const VERSION_BYTES: usize = 8;

// The bytes of a row beside those of its name.
const HEAD_BYTES: usize = VERSION_BYTES + 1;

/// The bytes of all rows, one after another. It takes time in proportion to them.
pub(crate) fn pack_rows(alloc: Global, rows: &[(ModName, Ver)]) -> Result<Vec<u8>, AllocError>
    ensures bytes { IfOk result (λ bytes. bytes.items ≡ flat_map row_bytes rows.now) }
    ensures rows { OnOk result (All CanPack rows.now) }
{
    let mut bytes = Vec::with_capacity(alloc, packed_len(rows))?;
    for row in rows.iter() {
        put_row(&mut bytes, &row.0, row.1)?;
    }
    Ok(bytes)
}

// The bytes that these rows take, or the largest number where they are more.
fn packed_len(rows: &[(ModName, Ver)]) -> usize
    ensures { result ≡ min (sum_by (λ row. 9 + length row.0) rows.now) (2 ^ 64 - 1) }
{
    let mut len: usize = 0;
    for row in rows.iter() {
        len = len.saturating_add(HEAD_BYTES + name_len(&row.0));
    }
    len
}

// The bytes of a name.
fn name_len(name: &ModName) -> usize
    ensures len { result ≡ length name.now }
    ensures short { result ≤ 255 }
    ensures named { is_name name.now ≡ true }
{
    name.as_bytes().len()
}

// Puts a row behind the bytes.
fn put_row(bytes: &mut Vec<u8>, name: &ModName, version: Ver) -> Result<(), AllocError>
    ensures bytes { OnOk result (bytes.new.items ≡ bytes.old.items ++ row_bytes (name.now, version)) }
    ensures row { OnOk result (CanPack (name.now, version)) }
{
    bytes.extend_from_slice(&version.to_le_bytes())?;
    bytes.push(name_len(name) as u8)?;
    bytes.extend_from_slice(name.as_bytes())
}

/// The rows that these bytes are. It takes time in proportion to them.
pub(crate) fn unpack_rows(
    alloc: Global,
    count: usize,
    bytes: &[u8],
) -> Result<Vec<(ModName, Ver)>, AllocError>
    requires { AreRows count bytes.now }
    ensures { IfOk result (λ rows. rows.items ≡ rows_in count bytes.now) }
{
    let mut rows = Vec::with_capacity(alloc, count)?;
    let mut rest = bytes;
    for _ in 0..count {
        rows.push(first_row(alloc, rest)?)?;
        rest = other_rows(rest);
    }
    Ok(rows)
}

// The first row.
fn first_row(alloc: Global, bytes: &[u8]) -> Result<(ModName, Ver), AllocError>
    requires { IsRow bytes.now }
    ensures { IfOk result (λ row. row ≡ first_row bytes.now) }
{
    let version = u64::from_le_bytes(*bytes.first_chunk::<VERSION_BYTES>().unwrap());
    match ModName::read(alloc, &bytes[HEAD_BYTES..row_len(bytes)]) {
        Ok(name) => Ok((name, version)),
        Err(NameFault::NoMemory) => Err(AllocError),
        Err(NameFault::NotAName) => unreachable!(),
    }
}

// The bytes of the rows behind the first.
fn other_rows(bytes: &[u8]) -> &[u8]
    requires { IsRow bytes.now }
    ensures { result.now ≡ drop (row_len bytes.now) bytes.now }
{
    &bytes[row_len(bytes)..]
}

// The number of bytes of the first row.
fn row_len(bytes: &[u8]) -> usize
    requires { IsRow bytes.now }
    ensures { result ≡ row_len bytes.now }
{
    HEAD_BYTES + usize::from(bytes[VERSION_BYTES])
}
