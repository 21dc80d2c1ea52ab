// Instances are replaced: of each its disposer is run, and its other handlers are dropped, but for the
// callbacks on the module itself, which are set aside for the new instance.
ghost use Rattle.std.specs.Prelude.{◌≡◌, ◌<◌};
ghost use Rattle.std.specs.Prelude.{ℕ, suc, true, is_some, Bool, Option, Some, None, length, IfOk, OnOk};
ghost use Rattle.std.specs.List.{All};
ghost use Rattle.core_model.specs.Names.{Name, has};
ghost use Rattle.client_model.specs.Applying.{live_of, replace_instance};
ghost use Rattle.client_model.specs.Instance as model;
ghost use Rattle.client_model.specs.Runtime.{Runtime, for_each};
ghost use Rattle.module_language.specs.ModuleLanguage.{module_language};
ghost use Rattle.page_plan.specs.Numbers.{new_number};
ghost use Rattle.page_ends.specs.Each.{FollowsEach, HasNew, IsReplacing, StandAt};
ghost use Rattle.page_state.specs.Live.{number_of};
ghost use Rattle.page_state.specs.Standing.{Follows, KeepWords, StandsFor, name_at};

use output_lines::{InstanceFate, OutLine};
use page_ends::{Whose, drop_left_behind, end_instance, falling_places};
use page_plan::{NameSet, Numbers};
use page_runs::run_disposer;
use page_state::Page;
use retained_data::{Bag, Ran};
use std::alloc::{AllocError, Global};

/// The instance at a place is replaced by the one of this number. Adds its lines. It fails only where
/// memory runs out; the page can't be used then. It takes time in proportion to what its disposer does
/// and to the number of its handlers.
pub fn replace_instance<F: FnOnce(Bag) -> Result<Ran, AllocError> + Drop>(
    page: &mut Page<F>,
    alloc: Global,
    place: usize,
    by: u32,
    lines: &mut Vec<OutLine>,
) -> Result<(), AllocError>
    requires place { place < length page.old.instances.items }
    requires callable { (f : F) → F.IsAlwaysCallable f }
    requires words { KeepWords F.post page.old }
    ensures count { OnOk result (length page.new.instances.items ≡ length page.old.instances.items) }
    ensures words { OnOk result (KeepWords F.post page.new) }
    ensures follows { (number : Name → Option ℕ) (i : model.Instance) → i.number ≡ suc place
        → number i.name ≡ Some by → OnOk result (Follows (replace_instance module_language number i)
        page.old page.new lines.old.items lines.new.items) }
{
    run_disposer(page, alloc, place, lines)?;
    drop_left_behind(page, place);
    end_instance(page, place, InstanceFate::Replaced(by));
    Ok(())
}

/// The instance at a place is replaced by the one that its name gets, and it gets one.
fn replace_at<F: FnOnce(Bag) -> Result<Ran, AllocError> + Drop>(
    page: &mut Page<F>,
    alloc: Global,
    place: usize,
    numbers: &Numbers,
    lines: &mut Vec<OutLine>,
) -> Result<(), AllocError>
    requires place { place < length page.old.instances.items }
    requires number { HasNew numbers.now (name_at page.old place) }
    requires callable { (f : F) → F.IsAlwaysCallable f }
    requires words { KeepWords F.post page.old }
    ensures count { OnOk result (length page.new.instances.items ≡ length page.old.instances.items) }
    ensures words { OnOk result (KeepWords F.post page.new) }
    ensures follows { (i : model.Instance) → i.number ≡ suc place → name_at page.old place ≡ Some i.name
        → OnOk result (Follows (replace_instance module_language (new_number numbers.now) i)
        page.old page.new lines.old.items lines.new.items) }
{
    let by = match numbers.get(&page.instances[place].name) {
        Some(by) => by,
        None => unreachable!(),
    };
    replace_instance(page, alloc, place, by, lines)?;
    Ok(())
}

/// The instances at these places are replaced, one after another, by those that their names get.
fn replace_each<F: FnOnce(Bag) -> Result<Ran, AllocError> + Drop>(
    page: &mut Page<F>,
    alloc: Global,
    places: &[usize],
    numbers: &Numbers,
    lines: &mut Vec<OutLine>,
) -> Result<(), AllocError>
    requires places { All (λ k. k < length page.old.instances.items) places.now }
    requires numbers { All (λ k. HasNew numbers.now (name_at page.old k)) places.now }
    requires callable { (f : F) → F.IsAlwaysCallable f }
    requires words { KeepWords F.post page.old }
    ensures count { OnOk result (length page.new.instances.items ≡ length page.old.instances.items) }
    ensures words { OnOk result (KeepWords F.post page.new) }
    ensures each { OnOk result (FollowsEach (replace_instance module_language (new_number numbers.now))
        places.now page.old page.new lines.old.items lines.new.items) }
{
    for place in places {
        replace_at(page, alloc, *place, numbers, lines)?;
    }
    Ok(())
}

/// The live instances of these names are replaced, the latest first, each by the instance of the number
/// that its name gets. Adds their lines, and answers the places of those that were replaced, in that
/// order: their callbacks on themselves stay set aside there, until `drop_all`. None is live under one
/// of the names then, nor under a name under which none was before. It fails only where memory runs
/// out; the page can't be used then. It takes time in proportion to the number of instances and to what
/// the disposers do.
pub fn replace_all<F: FnOnce(Bag) -> Result<Ran, AllocError> + Drop>(
    page: &mut Page<F>,
    alloc: Global,
    replaced: NameSet,
    numbers: &Numbers,
    lines: &mut Vec<OutLine>,
) -> Result<Vec<usize>, AllocError>
    requires numbers { (n : Name) → has replaced n ≡ true → is_some (new_number numbers.now n) ≡ true }
    requires callable { (f : F) → F.IsAlwaysCallable f }
    requires words { KeepWords F.post page.old }
    ensures count { OnOk result (length page.new.instances.items ≡ length page.old.instances.items) }
    ensures words { OnOk result (KeepWords F.post page.new) }
    ensures follows { (number : Runtime → Name → Option ℕ) (test : Runtime → Name → Bool)
        → IsReplacing replaced numbers.now page.old number test
        → OnOk result
        (Follows (λ r. for_each (replace_instance module_language (number r)) (live_of (test r) r) r)
        page.old page.new lines.old.items lines.new.items) }
    ensures gone { (r : Runtime) → StandsFor r page.old → (n : Name) → has replaced n ≡ true
        → OnOk result (number_of page.new.live n ≡ None) }
    ensures fewer { (r : Runtime) → StandsFor r page.old → (n : Name) → number_of page.old.live n ≡ None
        → OnOk result (number_of page.new.live n ≡ None) }
    ensures within { IfOk result
        (λ places. All (λ k. k < length page.old.instances.items) places.items) }
    ensures places { (r : Runtime) → StandsFor r page.old
        → IfOk result (λ places. StandAt page.old places.items (live_of (has replaced) r)) }
{
    let whose = Whose::Among(replaced);
    let places = falling_places(page, alloc, &whose)?;
    replace_each(page, alloc, &places, numbers, lines)?;
    Ok(places)
}
