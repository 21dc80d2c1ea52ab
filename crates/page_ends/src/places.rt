// The places of live instances: of all of them, or of those that have one of some names.
ghost use Rattle.std.specs.Prelude.{◌≡◌, ◌++◌, ◌∷◌, [], if◌then◌else◌, reverse, Some, IfOk, OnOk};
ghost use Rattle.page_ends.specs.Each.{is_live_of, is_of, live_places};

use output_lines::InstanceFate;
use page_instances::Instance;
use page_plan::NameSet;
use page_state::Page;
use std::alloc::{AllocError, Global};

/// Which of the live instances are meant.
#[derive(Drop)]
pub enum Whose {
    /// All of them.
    All,
    /// Those that have one of these names.
    Among(NameSet),
}

/// Whether an instance is live, and one that is meant.
fn is_meant<F>(instance: &Instance<F>, whose: &Whose) -> bool
    ensures { result ≡ is_live_of (is_of whose.now) (Some instance.now) }
{
    matches!(instance.fate, InstanceFate::Live)
        && match whose {
            Whose::All => true,
            Whose::Among(names) => names.has(&instance.name),
        }
}

/// Adds a place to others, where it is meant.
fn add_place(places: &mut Vec<usize>, place: usize, is_meant: bool) -> Result<(), AllocError>
    ensures { OnOk result (places.new.items ≡ places.old.items ++ (if is_meant then place ∷ [] else [])) }
{
    if is_meant {
        places.push(place)?;
    }
    Ok(())
}

/// The places of the live instances that are meant, rising. It takes time in proportion to the number
/// of instances, and to the logarithm of the number of names. It fails only where memory runs out.
pub fn rising_places<F>(
    page: &Page<F>,
    alloc: Global,
    whose: &Whose,
) -> Result<Vec<usize>, AllocError>
    ensures { IfOk result (λ places. places.items ≡ reverse (live_places (is_of whose.now) page.now)) }
{
    let mut places = Vec::new(alloc);
    for place in 0..page.instances.len() {
        add_place(&mut places, place, is_meant(&page.instances[place], whose))?;
    }
    Ok(places)
}

/// The same, falling.
pub fn falling_places<F>(
    page: &Page<F>,
    alloc: Global,
    whose: &Whose,
) -> Result<Vec<usize>, AllocError>
    ensures { IfOk result (λ places. places.items ≡ live_places (is_of whose.now) page.now) }
{
    let mut places = rising_places(page, alloc, whose)?;
    places.reverse();
    Ok(places)
}
