// The table that a client tells, against the versions of a view.
ghost use Rattle.std.specs.Prelude.{◌≡◌, ◌==◌, ◌++◌, filter, not, option_map, IfOk, IsTrue};
ghost use Rattle.std.specs.Cmp.Lexicographic.{slice_cmp};
ghost use Rattle.std.specs.List.Sorted.{IsStrictlySortedBy};
ghost use Rattle.std.specs.Ordering.{nat_cmp};
ghost use Rattle.core_model.specs.Names.{first_of, names_of, sorted};
ghost use Rattle.core_model.specs.Requests.{version_at};
ghost use Rattle.core_model.specs.View.{table_of};
ghost use Rattle.page_plan.specs.Applied.{IsCompared};

use crate::apply::Applied;
use crate::plan::Plan;
use crate::told::Told;
use hmr_types::{ModName, PlanKind, Table, Ver};
use module_graph::{View, copy_name, rising};
use std::alloc::{AllocError, Global};

/// The view, where each of its modules is told at its version and no other is told; else the least name
/// with two versions.
pub(crate) fn compared(alloc: Global, told: &Table, made: View) -> Result<Applied, AllocError>
    requires { IsStrictlySortedBy (slice_cmp nat_cmp) (names_of made) }
    ensures { IfOk result (IsCompared told.now made) }
{
    if is_table_of(alloc, told, &made) {
        return Ok(Applied::Done(made));
    }
    let names = told_and_kept(alloc, told.as_slice(), &made)?;
    let told = Told::of(alloc, told.as_slice())?;
    match first_differing(&told, &made, &names) {
        Some(name) => Ok(Applied::Mismatch {
            name: copy_name(name)?,
            told: told.version(name),
            kept: version_kept(&made, name),
        }),
        None => Ok(Applied::Done(made)),
    }
}

// Whether the table is that of the view, as an update that replaces nothing leaves it: one walk of both.
fn is_table_of(alloc: Global, told: &Table, view: &View) -> bool
    requires { IsStrictlySortedBy (slice_cmp nat_cmp) (names_of view.now) }
    ensures { IsTrue result → told.now ≡ table_of view.now }
{
    let update = Plan::new(alloc, PlanKind::Update);
    update.is_told(view, told, &[])
}

// The names that are told or kept, rising by bytes.
fn told_and_kept(
    alloc: Global,
    told: &[(ModName, Ver)],
    kept: &View,
) -> Result<Vec<ModName>, AllocError>
    ensures { IfOk result
        (λ names. names.items ≡ sorted (names_of told.now ++ names_of (table_of kept.now))) }
{
    let mut names = names_told(alloc, told)?;
    let mut more = kept.names(alloc)?;
    names.append(&mut more)?;
    let names = rising(names)?;
    Ok(names)
}

fn names_told(alloc: Global, told: &[(ModName, Ver)]) -> Result<Vec<ModName>, AllocError>
    ensures { IfOk result (λ names. names.items ≡ names_of told.now) }
{
    let mut names = Vec::new(alloc);
    for row in told {
        names.push(row.0.clone()?)?;
    }
    Ok(names)
}

// The first of these names that is told at another version than it is kept at.
fn first_differing<'a>(told: &Told, kept: &View, names: &'a [ModName]) -> Option<&'a ModName>
    ensures { option_map (λ n. n.now) result
        ≡ first_of
        (filter (λ n. not (version_at told.now n == version_at (table_of kept.now) n)) names.now) }
{
    for name in names {
        if told.version(name) != version_kept(kept, name) {
            return Some(name);
        }
    }
    None
}

// The version that a view has of a name, 0 for none.
fn version_kept(kept: &View, name: &ModName) -> Ver
    ensures { result ≡ version_at (table_of kept.now) name.now }
{
    match kept.get(name) {
        Some((version, _)) => version,
        None => 0,
    }
}
