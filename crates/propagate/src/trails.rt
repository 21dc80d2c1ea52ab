// The least path to one of the names that are looked for. The search looks at the names that it met in
// the order in which it met them, and takes up what the edges of each lead to, rising by bytes, where it
// isn't met yet. So it meets names in the order of the least paths to them: of paths with fewer names
// first, and of paths with as many the lesser first. The first name met that is looked for is the end of
// the least path of all.
ghost use Rattle.std.specs.Prelude.{◌≡◌, ◌<◌, ◌++◌, Bool, true, false, List, [], Option};
ghost use Rattle.std.specs.Prelude.{IfOk, OnOk, IfSome, IfNone, length, map, get_or};
ghost use Rattle.std.specs.Cmp.Lexicographic.{slice_cmp};
ghost use Rattle.std.specs.List.Sorted.{IsStrictlySortedBy};
ghost use Rattle.std.specs.Ordering.{nat_cmp};
ghost use Rattle.core_model.specs.LeastPath.{IsLeastPath};
ghost use Rattle.core_model.specs.Names.{Name};
ghost use Rattle.core_model.specs.Paths.{Reaches};
ghost use Rattle.module_graph.specs.Paths.{with_new};
ghost use Rattle.propagate.specs.Trails.{AreTrails, IsTraced, unmet, with_from};

use hmr_types::ModName;
use module_graph::{Edges, Known, copy_name, copy_of, rising};
use std::alloc::{AllocError, Global};

/// Names that are looked for.
pub(crate) trait Ends {
    ghost bad: { Self → Name → Bool };

    fn is_bad(&self, name: &ModName) -> bool
        ensures { result ≡ bad self.now name.now };
}

// The names that a search met, and for each the place of the name from which an edge led to it: None at
// a start.
#[derive(Drop)]
struct Trails {
    met: Known,
    from: Vec<Option<usize>>,
}

/// The least path from one of the starts to a name that is looked for: with the fewest names, and of
/// these the least by bytes, name by name. None where there is no such path. It asks once for the edges of
/// each name that it meets, and keeps a place for each.
pub(crate) fn least_path<G: Edges, B: Ends>(
    alloc: Global,
    graph: &G,
    ends: &B,
    starts: &[ModName],
) -> Result<Option<Vec<ModName>>, AllocError>
    ensures some { IfOk result (λ answer. IfSome answer (λ path.
        IsLeastPath (G.edge graph.now) starts.now (B.bad ends.now) path.items)) }
    ensures none { IfOk result (λ answer. IfNone answer ((m : Name) →
        Reaches (G.edge graph.now) starts.now m → B.bad ends.now m ≡ false)) }
{
    let mut trails = Trails {
        met: Known::new(alloc),
        from: Vec::new(alloc),
    };
    let first = rising(copy_of(alloc, starts)?)?;
    meet(&mut trails, None, &first)?;
    let mut at = 0;
    while at < trails.met.names().len() {
        if ends.is_bad(&trails.met.names()[at]) {
            let path = path_to(alloc, trails.met.names(), &trails.from, at)?;
            return Ok(Some(path));
        }
        let next = rising(graph.next(alloc, &trails.met.names()[at])?)?;
        meet(&mut trails, Some(at), &next)?;
        at += 1;
    }
    Ok(None)
}

// Meets those of the names that aren't met yet: an edge leads to them from this place, or they are starts.
fn meet(trails: &mut Trails, from: Option<usize>, names: &[ModName]) -> Result<(), AllocError>
    requires rising { IsStrictlySortedBy (slice_cmp nat_cmp) names.now }
    ensures met { OnOk result (trails.new.met ≡ trails.old.met ++ unmet trails.old.met names.now) }
    ensures from { let more = map (λ n. from) (unmet trails.old.met names.now) in
        OnOk result (trails.new.from.items ≡ trails.old.from.items ++ more) }
{
    for name in names {
        meet_one(trails, from, name)?;
    }
    Ok(())
}

fn meet_one(trails: &mut Trails, from: Option<usize>, name: &ModName) -> Result<(), AllocError>
    ensures met { OnOk result (trails.new.met ≡ with_new trails.old.met name.now) }
    ensures from { OnOk result
        (trails.new.from.items ≡ with_from trails.old.met trails.old.from.items name.now from) }
{
    if trails.met.add(name)? {
        trails.from.push(from)?;
    }
    Ok(())
}

// The path to the name at a place: back from it to a start.
fn path_to(
    alloc: Global,
    names: &[ModName],
    from: &[Option<usize>],
    at: usize,
) -> Result<Vec<ModName>, AllocError>
    requires within { at < length names.now }
    requires traced { IsTraced names.now from.now }
    ensures { (paths : List (List Name)) → AreTrails names.now from.now paths →
        IfOk result (λ path. path.items ≡ get_or paths at []) }
{
    let mut path = Vec::new(alloc);
    let mut place = Some(at);
    while let Some(i) = place {
        path.push(copy_name(&names[i])?)?;
        place = from[i];
    }
    path.reverse();
    Ok(path)
}
