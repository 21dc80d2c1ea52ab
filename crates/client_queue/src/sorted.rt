// Names, and entries by name, that rise by bytes: putting in, taking out, and the first.
ghost use Rattle.std.specs.Prelude.{◌≡◌, ◌≤◌, ◌<◌, ◌-◌, IfOk, IfErr, IsOk, OnOk, OnErr, drop};
ghost use Rattle.std.specs.Prelude.{filter, length, not, slice_set, vec_len, vec_capacity};
ghost use Rattle.std.specs.Cmp.Lexicographic.{slice_cmp};
ghost use Rattle.std.specs.List.{insert};
ghost use Rattle.std.specs.List.Sorted.{IsStrictlySortedBy};
ghost use Rattle.std.specs.Ordering.{nat_cmp};
ghost use Rattle.hmr_types.specs.declared.analysis.TextFault.{TextFault};
ghost use Rattle.core_model.specs.Names.{first_of, names_of, put_name, same_name, without};
ghost use Rattle.client_queue.specs.Queue.{put_row};

use hmr_types::{ModName, TextFault};
use std::alloc::AllocError;

/// Puts a name in where it belongs, unless it is there.
pub(crate) fn put_name(names: &mut Vec<ModName>, name: ModName) -> Result<(), AllocError>
    ensures ok { OnOk result (names.new.items ≡ put_name name names.old.items) }
    ensures err { OnErr result (names.new.items ≡ names.old.items) }
    ensures rising { IsStrictlySortedBy (slice_cmp nat_cmp) names.old.items
        → IsStrictlySortedBy (slice_cmp nat_cmp) names.new.items }
{
    if let Err(place) = name_place(names, &name) {
        names.insert(place, name)?;
    }
    Ok(())
}

// Where a name stands, or else where it belongs.
fn name_place(names: &[ModName], name: &ModName) -> Result<usize, usize>
    ensures there { IfOk result (λ i. put_name name.now names.now ≡ names.now) }
    ensures free { IfErr result (λ i. put_name name.now names.now ≡ insert names.now i name.now) }
    ensures within { IfErr result (λ i. i ≤ length names.now) }
{
    for place in 0..names.len() {
        if *name == names[place] {
            return Ok(place);
        }
        if *name < names[place] {
            return Err(place);
        }
    }
    Err(names.len())
}

/// Takes a name out.
pub(crate) fn without_name(names: &mut Vec<ModName>, name: &ModName)
    ensures items { names.new.items ≡ filter (λ m. not (same_name m name.now)) names.old.items }
    ensures rising { IsStrictlySortedBy (slice_cmp nat_cmp) names.old.items
        → IsStrictlySortedBy (slice_cmp nat_cmp) names.new.items }
{
    names.retain(|n| n != name);
}

/// Puts an entry in place of the name's own, or else where its name belongs. With room for one more it
/// isn't refused.
pub(crate) fn put_row(
    rows: &mut Vec<(ModName, TextFault)>,
    name: ModName,
    fault: TextFault,
) -> Result<(), AllocError>
    ensures ok { OnOk result (rows.new.items ≡ put_row name fault rows.old.items) }
    ensures err { OnErr result (rows.new.items ≡ rows.old.items) }
    ensures room { 1 ≤ vec_capacity rows.old - vec_len rows.old → IsOk result }
    ensures rising { IsStrictlySortedBy (slice_cmp nat_cmp) (names_of rows.old.items)
        → IsStrictlySortedBy (slice_cmp nat_cmp) (names_of rows.new.items) }
{
    match row_place(rows, &name) {
        Ok(place) => {
            rows[place] = (name, fault);
            Ok(())
        }
        Err(place) => {
            rows.insert(place, (name, fault))?;
            Ok(())
        }
    }
}

// Where the entry of a name stands, or else where it belongs.
fn row_place(rows: &[(ModName, TextFault)], name: &ModName) -> Result<usize, usize>
    ensures there { IfOk result
        (λ i. (x : TextFault) → put_row name.now x rows.now ≡ slice_set rows.now i (name.now, x)) }
    ensures there_within { IfOk result (λ i. i < length rows.now) }
    ensures free { IfErr result
        (λ i. (x : TextFault) → put_row name.now x rows.now ≡ insert rows.now i (name.now, x)) }
    ensures free_within { IfErr result (λ i. i ≤ length rows.now) }
{
    for place in 0..rows.len() {
        if *name == rows[place].0 {
            return Ok(place);
        }
        if *name < rows[place].0 {
            return Err(place);
        }
    }
    Err(rows.len())
}

/// Takes the entry of a name out.
pub(crate) fn without_row(rows: &mut Vec<(ModName, TextFault)>, name: &ModName)
    ensures items { rows.new.items ≡ without name.now rows.old.items }
    ensures rising { IsStrictlySortedBy (slice_cmp nat_cmp) (names_of rows.old.items)
        → IsStrictlySortedBy (slice_cmp nat_cmp) (names_of rows.new.items) }
{
    rows.retain(|row| row.0 != *name);
}

/// Takes the first entry out.
pub(crate) fn first(rows: &mut Vec<(ModName, TextFault)>) -> Option<(ModName, TextFault)>
    ensures first { result ≡ first_of rows.old.items }
    ensures left { rows.new.items ≡ drop 1 rows.old.items }
    ensures rising { IsStrictlySortedBy (slice_cmp nat_cmp) (names_of rows.old.items)
        → IsStrictlySortedBy (slice_cmp nat_cmp) (names_of rows.new.items) }
{
    if rows.len() == 0 {
        return None;
    }
    Some(rows.remove(0))
}
