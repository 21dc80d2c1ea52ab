// What of a module's data reaches which instance.
ghost use Rattle.std.specs.Prelude.{◌≡◌, ℕ, [], ◌∷◌, ◌++◌, Some};
ghost use Rattle.hmr_types.specs.declared.value.Value.{Value};
ghost use Rattle.output_lines.specs.declared.words.InstanceFate.TheVariants.{Replaced};
ghost use Rattle.core_model.specs.Names.{Name};
ghost use Rattle.client_model.specs.Language.{Language, Bag, Evaluated};
ghost use Rattle.client_model.specs.Journal.{Journal, evaluated, ended, gave_up};
ghost use Rattle.client_model.specs.Runtime.{Runtime};
ghost use Rattle.journal_laws.specs.Runs.{OfEachRun};
ghost use Rattle.journal_laws.specs.GivingUp.{BagsGoAtPrunes, AllBagsGoAtReloads, IsRefused};
ghost use Rattle.journal_laws.specs.Data.{EvaluationsStartRight, RunsStartRight, OthersInheritNothing};
ghost use Rattle.journal_laws.specs.Data.{SuccessorsInherit, DisposersHandOn, NoneIsLeft, disposed_left};

/// Each evaluation of a module, and each run of a handler of it, starts with the bag that the last one
/// before it left; with the empty one where there was none, or where the bag was given up since.
pub fn each_starts_with_what_was_left()
    ensures evaluations { (language : Language) → OfEachRun language EvaluationsStartRight }
    ensures runs { (language : Language) → OfEachRun language RunsStartRight }
{}

/// An instance that replaces another starts with what was left when that one ended, and so with what its
/// disposer left. Any other starts with the empty bag: that of a new name, of one that was pruned before,
/// and of each at a page load or a reload.
pub fn data_reaches_successors_only()
    ensures successors { (language : Language) → OfEachRun language SuccessorsInherit }
    ensures disposers { (language : Language) → OfEachRun language DisposersHandOn }
    ensures others { (language : Language) → OfEachRun language OthersInheritNothing }
{}

/// A name without a live instance has no data.
pub fn no_data_without_an_instance()
    ensures { (language : Language) → OfEachRun language NoneIsLeft }
{}

/// Data is given up in two cases alone: that of a name at its prune, directly before its instance ends; and
/// that of all names where a reload is applied. So nothing is given up at a replacement.
pub fn data_is_given_up_at_prunes_and_reloads()
    ensures one { (language : Language) → OfEachRun language BagsGoAtPrunes }
    ensures all { (language : Language) → OfEachRun language AllBagsGoAtReloads }
{}

/// These laws refuse a client that gives a bag up at a replacement, whatever else happens in it: where it
/// tells of that, and where it only starts the later instance with an empty bag though a disposer left
/// something.
pub fn giving_up_at_a_replacement_is_refused()
    ensures told { (r : Runtime) (front back : Journal) (n m : Name) (j k : ℕ) →
        IsRefused (BagsGoAtPrunes r (front ++ gave_up n ∷ ended j m (Replaced k) ∷ back)) }
    ensures silent { (r : Runtime) (front middle back : Journal) (n : Name) (j k : ℕ) (e : Evaluated)
        (key : Name) (value : Value) (bag : Bag) → disposed_left front j ≡ Some ((key, value) ∷ bag) →
        IsRefused (DisposersHandOn r
        (front ++ ended j n (Replaced k) ∷ (middle ++ evaluated k n [] e ∷ back))) }
{}
