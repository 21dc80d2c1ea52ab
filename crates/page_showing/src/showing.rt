// What a page shows of its instances: what the exports of live ones hold, which of them are linked to older
// instances, and what became of each that was made.
ghost use Rattle.std.specs.Prelude.{◌≡◌, ◌++◌, ◌∷◌, length, IfOk, OnOk};
ghost use Rattle.output_lines.specs.declared.out_line.OutLine.TheVariants.{Values};
ghost use Rattle.core_model.specs.Names.{Name, at};
ghost use Rattle.client_model.specs.Printing.{fate_lines};
ghost use Rattle.client_model.specs.Runtime.{Runtime};
ghost use Rattle.client_model.specs.Stale.{same_link};
ghost use Rattle.page_state.specs.Live.{number_of};
ghost use Rattle.page_state.specs.Settling.{live_in};
ghost use Rattle.page_showing.specs.Showing.{apart, lines_upto, link_by, stale_among, values_among};
ghost use Rattle.page_showing.specs.Showing.{values_kept, values_under};
ghost use Rattle.page_state.specs.Standing.{StandsFor};

use hmr_types::ModName;
use output_lines::OutLine;
use page_instances::{tell_fate, tell_values};
use page_state::{LiveNumbers, Page};
use std::alloc::{AllocError, Global};

/// The numbers of links, by name: the first link of a name counts. It takes the time of so many look-ups.
fn by_name(alloc: Global, links: &[(ModName, u32)]) -> Result<LiveNumbers, AllocError>
    ensures { IfOk result (λ numbers. (n : Name) → number_of numbers n ≡ at links.now n) }
{
    let mut numbers = LiveNumbers::new(alloc);
    let mut left = links.len();
    while left > 0 {
        left -= 1;
        let link = &links[left];
        numbers.put(link.0.clone()?, link.1)?;
    }
    Ok(numbers)
}

/// Whether both are the same number, or neither is there.
fn same_link(one: Option<u32>, other: Option<u32>) -> bool
    ensures { result ≡ same_link one other }
{
    match one {
        Some(number) => match other {
            Some(live) => number == live,
            None => false,
        },
        None => other.is_none(),
    }
}

/// Adds the name with each of these that it has another number for among the links than is live.
fn tell_apart(
    edges: &mut Vec<(ModName, ModName)>,
    links: &LiveNumbers,
    live: &LiveNumbers,
    importer: &ModName,
    imports: &[ModName],
) -> Result<(), AllocError>
    ensures { OnOk result
        (edges.new.items ≡ edges.old.items ++ apart links.now live.now importer.now imports.now) }
{
    for import in imports {
        if !same_link(links.get(import), live.get(import)) {
            edges.push((importer.clone()?, import.clone()?))?;
        }
    }
    Ok(())
}

/// Adds the lines of what the exports of the live module of a name hold, where there is one.
fn tell_live<F>(page: &Page<F>, lines: &mut Vec<OutLine>, name: &ModName) -> Result<(), AllocError>
    ensures { OnOk result
        (lines.new.items ≡ lines.old.items ++ values_under name.now (live_in page.now name.now)) }
{
    match page.live_instance(name) {
        Some(instance) => tell_values(lines, name, instance),
        None => Ok(()),
    }
}

/// Adds the lines of what the exports of the live modules among these hold.
fn tell_all_live<F>(
    page: &Page<F>,
    lines: &mut Vec<OutLine>,
    names: &[ModName],
) -> Result<(), AllocError>
    ensures { OnOk result (lines.new.items ≡ lines.old.items ++ values_kept page.now names.now) }
{
    for name in names {
        tell_live(page, lines, name)?;
    }
    Ok(())
}

/// The lines of what the exports of the live modules among these hold, in the order of the names and
/// then of the exports. It fails only where memory runs out. It takes time in proportion to the names,
/// each with the logarithm of the number of live ones, and to the exports, each with the variables of
/// its module.
pub fn value_lines<F>(
    page: &Page<F>,
    alloc: Global,
    names: &[ModName],
) -> Result<Vec<OutLine>, AllocError>
    ensures { (r : Runtime) → StandsFor r page.now
        → IfOk result (λ lines. lines.items ≡ Values r.client ∷ values_among r names.now) }
{
    let mut lines = Vec::new(alloc);
    lines.push(OutLine::Values {
        client: page.client,
    })?;
    tell_all_live(page, &mut lines, names)?;
    Ok(lines)
}

/// The numbers of the links of the live module of a name, by name; none where none is live.
fn links_of<F>(page: &Page<F>, alloc: Global, name: &ModName) -> Result<LiveNumbers, AllocError>
    ensures { IfOk result
        (λ numbers. (x : Name) → number_of numbers x ≡ link_by (live_in page.now name.now) x) }
{
    match page.live_instance(name) {
        Some(instance) => by_name(alloc, instance.links.as_slice()),
        None => Ok(LiveNumbers::new(alloc)),
    }
}

/// Adds the edges from a module to each of these imports of which another instance is live than the one
/// that it is linked to. It fails only where memory runs out. It takes time in proportion to the links
/// of the module and the imports, each with the logarithm of the number of live modules.
pub fn tell_stale<F>(
    page: &Page<F>,
    alloc: Global,
    importer: &ModName,
    imports: &[ModName],
    edges: &mut Vec<(ModName, ModName)>,
) -> Result<(), AllocError>
    ensures { (r : Runtime) → StandsFor r page.now
        → OnOk result (edges.new.items ≡ edges.old.items ++ stale_among r importer.now imports.now) }
{
    let links = links_of(page, alloc, importer)?;
    tell_apart(edges, &links, &page.live, importer, imports)?;
    Ok(())
}

/// Adds the lines of each instance that was made, with its handlers.
fn tell_fates<F>(page: &Page<F>, lines: &mut Vec<OutLine>) -> Result<(), AllocError>
    ensures { OnOk result (lines.new.items
        ≡ lines.old.items ++ lines_upto page.now.instances.items (length page.now.instances.items)) }
{
    for place in 0..page.instances.len() {
        match u32::try_from(place + 1) {
            Ok(number) => tell_fate(lines, number, &page.instances[place])?,
            Err(_) => return Err(AllocError),
        }
    }
    Ok(())
}

/// The lines of each instance that was made, by rising number, with its handlers in the order in which
/// they came. It fails only where memory runs out, or where there are more instances than a `u32`
/// counts. It takes time in proportion to the instances and their handlers.
pub fn fate_lines<F>(page: &Page<F>, alloc: Global) -> Result<Vec<OutLine>, AllocError>
    ensures { (r : Runtime) → StandsFor r page.now → IfOk result (λ lines. lines.items ≡ fate_lines r) }
{
    let mut lines = Vec::new(alloc);
    lines.push(OutLine::Fates {
        client: page.client,
    })?;
    tell_fates(page, &mut lines)?;
    Ok(lines)
}
